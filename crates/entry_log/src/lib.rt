//! Entries in a journal on a disk: what was appended is there after a crash.
#![tactic(auto)]

mod append;
mod draft;
mod fault;
pub mod laws;
mod log;
mod room;
mod scan;

pub use draft::Draft;
pub use fault::DraftFault;
pub use journal::{Disk, DiskFailed, NoMemory, ScanFault};
pub use log::{EntryLog, create};
pub use room::log_room;
pub use scan::{EntryScan, recover};
