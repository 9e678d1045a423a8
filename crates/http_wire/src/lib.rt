//! Requests of HTTP/1.1 read from the front of bytes, without a copy, and responses written.
#![tactic(auto)]

mod fields;
mod head;
mod next;
mod reader;
mod response;
mod scan;
mod words;

pub use http_model::{Allow, Method, StatusCode};
pub use next::{Next, Request};
pub use reader::{RequestReader, next_request};
pub use response::{Response, write_response};
pub use site_ids::{Bytes, NoMemory};
