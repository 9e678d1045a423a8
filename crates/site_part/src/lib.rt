//! The tree part of the site in memory, with the plans of what commands change in it; what a caller
//! needs for a command, and the first six rules of every command.
#![tactic(auto)]

mod asking;
mod fault;
mod living;
mod need;
mod owning;
mod part;
mod passing;
mod plan;

pub use asking::moderates;
pub use fault::Fault;
pub use flat_model::{Change, FlowChange, PeopleChange, TreeChange};
pub use living::is_live_page;
pub use need::{Need, may};
pub use part::TreePart;
pub use passing::front;
pub use plan::Plan;
