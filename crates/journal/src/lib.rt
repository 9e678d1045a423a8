//! A journal of payloads on a disk: what was appended is there after a crash.
#![tactic(auto)]

mod append;
mod fault;
mod form;
mod fresh;
mod head;
mod journal;
pub mod laws;
mod payload;
mod record;
mod scan;

pub use disk_model::{Disk, DiskFailed, NoMemory};
pub use fault::ScanFault;
pub use form::{HEADER_SIZE, MAX_FILE_SIZE};
pub use fresh::create;
pub use journal::Journal;
pub use payload::Bytes;
pub use record::{Record, make_record};
pub use scan::{Scan, recover};
