//! Fields and contents read from bytes and written as bytes, each in its one form.
#![tactic(auto)]

mod content;
mod fault;
pub mod laws;
mod read_content;
mod read_fields;
mod reader;
mod write_content;
mod write_fields;
mod writer;

pub use content::{read_content_bytes, write_content_bytes};
pub use fault::ReadFault;
pub use reader::Reader;
pub use writer::Writer;
