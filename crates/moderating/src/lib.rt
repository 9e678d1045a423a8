//! Plans of the commands of moderation, and what they share with other plans.
#![tactic(auto)]

mod answering;
mod assigning;
mod defining;
mod events;
mod lateness;
mod naming;
mod nearest;
mod telling;

pub use answering::{plan_approval, plan_cancelling, plan_rejection, plan_submission};
pub use assigning::plan_assignment;
pub use defining::{plan_task, plan_workflow};
pub use events::{after_filing, after_publishing};
pub use lateness::is_late;
pub use nearest::nearest_workflow;
pub use telling::{
    body_of, body_plan, ending, kept_of, later, latest_of, no_pages, one_page, same_moment,
    same_revision,
};
