//! The rows of all pages in path order, after django-treebeard's `MP_Node` table.
#![tactic(auto)]

mod change;
mod insert;
mod kid_index;
mod kids;
mod look_up;
mod parent;
mod plan;
mod range;
mod relabel;
mod relabels;
mod remove;
mod rewrite;
mod root;
mod rows;
mod search;
mod settle;
mod stored;
mod urls;

pub use kids::Kids;
pub use parent::{is_beside, new_parent};
pub use plan::MovePlan;
pub use relabels::Relabels;
pub use rows::Rows;
pub use urls::Urls;
