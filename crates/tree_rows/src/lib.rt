//! The rows of a tree, their subtrees and blocks: definitions and lemmas for proofs on the plans of
//! moves and URLs. Nothing here runs.
#![tactic(auto)]
