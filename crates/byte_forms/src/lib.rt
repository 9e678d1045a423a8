//! The byte forms of entries, contents, rows and worlds: definitions for proofs alone.
#![tactic(auto)]
