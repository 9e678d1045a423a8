//! Histories of any kind of world: definitions for proofs alone.
#![tactic(auto)]
