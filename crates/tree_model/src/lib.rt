//! What commands do to the tree of pages: definitions for proofs. Nothing here runs.
#![tactic(auto)]
