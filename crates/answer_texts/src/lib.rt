//! The responses to answers: their statuses, and their bodies of JSON (RFC 8259).
#![tactic(auto)]

mod card;
mod parts;
mod public;
mod refs;
mod refusal;
mod reply;
mod response;

pub use http_wire::{NoMemory, Response};
pub use response::{memory_text, to_response};
pub use wire_model::Answer;
