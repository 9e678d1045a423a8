//! The site of one caller, on a disk: each accepted command is on the disk before it is answered.
#![tactic(auto)]

mod fault;
pub mod laws;
mod opening;
mod replay;
mod store;

pub use entry_log::Disk;
pub use fault::{CallFault, OpenFault};
pub use opening::ABC_DIGEST;
pub use store::{Accepted, Store};
