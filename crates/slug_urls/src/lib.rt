//! The URLs of pages, found by the walk from the root.
#![tactic(auto)]

mod downward;
mod fault;
pub mod laws;
mod plan;
mod upward;

pub use downward::walk;
pub use fault::UrlFault;
pub use plan::{MAX_URL_BYTES, find_taken, plan_urls};
pub use upward::url_of;
