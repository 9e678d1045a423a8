//! The ordered tree of pages: what it is stands in `specs/`, and here a plain program computes it.
#![tactic(auto)]

pub mod cut;
pub mod grove;
pub mod laws;
pub mod listing;
pub mod place;
pub mod walk;
