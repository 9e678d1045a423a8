//! What a command changes in the tree part, store by store, and the lists that a change leaves.
#![tactic(auto)]

mod change;

pub use change::{Change, FlowChange, PeopleChange, Purge, TreeChange};
