//! Which pages get other links by a change of the site, and the links that they have then.
#![tactic(auto)]

mod after;
mod fates;
mod gathered;
mod ids;
pub mod laws;
mod plan;
mod put;

pub use fates::Fate;
pub use plan::plan_links;
pub use put::{put_links, reserve_links};
