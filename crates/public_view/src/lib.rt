//! What readers are shown of a page.
#![tactic(auto)]

mod card;
mod kid;
mod refs;

pub use card::Card;
pub use kid::{LiveKid, MAX_KIDS};
pub use refs::MAX_REFS;
