//! Which pages have an open desk, and whose it is.
#![tactic(auto)]

mod pairs;
mod search;

pub use pairs::DeskPairs;
