//! What aliases show, and what copies of pages get.
#![tactic(auto)]

mod alias;
mod content;
mod copy;
mod plan;

pub use alias::plan_alias;
pub use content::{copied_content, shown_content};
pub use copy::{copied_range, plan_copy};
pub use plan::CopyPlan;
