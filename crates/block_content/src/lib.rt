//! The JSON of a page's content (RFC 8259): read with its limits, written in its one form, and the
//! pages that it links to; and readers of the members of JSON objects.
#![tactic(auto)]

mod fault;
mod linked;
pub mod members;
mod read;
mod write;

pub use fault::ContentFault;
pub use linked::links;
pub use read::read_content;
pub use write::{write_blocks, write_content};
