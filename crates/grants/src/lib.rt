//! Users, groups, memberships and grants, and what a user holds at a page.
#![tactic(auto)]

mod define;
mod digest;
mod granting;
mod joining;
mod look_up;
mod places;
mod right;
mod spans;
mod store;

pub use granting::number;
pub use right::{Held, holds};
pub use store::Grants;
