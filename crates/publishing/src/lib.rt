//! Publishing: which pages are live, what waits for its moment, and locks; with the two time tables
//! in step.
#![tactic(auto)]

mod bodies;
mod body;
mod due;
mod gone;
pub mod laws;
mod live;
mod ticked;
mod ticking;

pub use bodies::{
    expired_body, has_expired, locked_body, published_body, unlocked_body, unpublished_body,
    unscheduled_body, waits,
};
pub use body::put_body;
pub use due::TickPlan;
pub use gone::{drop_page, drop_pages};
pub use live::{lock, publish, unlock, unpublish};
pub use ticked::tick_bodies;
pub use ticking::tick_plan;
