//! The world of pages and what commands do to it: definitions for proofs, and a law about them.
#![tactic(auto)]

pub mod laws;
