//! Plans of the commands on the tree: those of pages that come, and moves, deletions and other slugs;
//! aliases that become regular pages.
#![tactic(auto)]

mod deletion;
mod detaching;
mod leaving;
mod moving;
mod prepare;
mod renaming;

pub use prepare::prepare_tree;
