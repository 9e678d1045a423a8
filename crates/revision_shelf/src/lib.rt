//! The revisions of all pages, kept by id and rising by it.
#![tactic(auto)]

mod add;
mod chain;
mod look_up;
mod purge;
mod remove;
mod shelf;

pub use shelf::{MAX_CONTENT_SUM, Shelf};
