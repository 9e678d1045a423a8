//! What a move, a deletion and a new page do to the paths of a tree, after django-treebeard's
//! `MP_Node`.
#![tactic(auto)]

mod append;
mod applying;
mod delete;
mod fault;
mod into;
pub mod laws;
mod look;
mod moving;
mod relabel;
mod spot;
mod standing;

pub use append::plan_append;
pub use applying::apply;
pub use delete::plan_delete;
pub use fault::PathFault;
pub use into::leads_into_itself;
pub use moving::plan_move;
