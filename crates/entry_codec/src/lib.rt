//! Entries of the journal read from bytes and written as bytes, each in its one form.
#![tactic(auto)]

mod entry;
pub mod laws;
mod lists;
mod read_command;
mod read_fields;
mod write_command;
mod write_fields;

pub use content_codec::{read_content_bytes, write_content_bytes};
pub use entry::{read_entry, write_entry};
