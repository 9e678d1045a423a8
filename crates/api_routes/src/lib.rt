//! The routes of the API: from a request of HTTP/1.1 to what it asks of the site, with bodies of JSON
//! (RFC 8259). The responses to answers are those of `answer_texts`.
#![tactic(auto)]

mod body;
mod call;
mod digest;
mod form;
mod id;
mod ids;
mod member;
mod path;
mod router;
mod table;

pub use answer_texts::{memory_text, to_response};
pub use call::to_call;
pub use http_wire::{Allow, Method, NoMemory, Request, Response};
pub use router::Routes;
pub use wire_model::{Answer, Call, RouteFault};
