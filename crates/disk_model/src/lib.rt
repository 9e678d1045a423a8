//! A disk of four files, what a crash may leave of it, and a disk in memory for tests.
#![tactic(auto)]

mod calls;
mod disk;
mod fault;
mod files;
mod memory_disk;
mod no_memory;
mod story;
mod synced;
mod told;

pub use disk::Disk;
pub use fault::DiskFailed;
pub use memory_disk::MemoryDisk;
pub use no_memory::NoMemory;
pub use synced::{cut_synced, write_synced};
