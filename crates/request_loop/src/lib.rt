//! The loop that reads requests from a source, has each answered, and writes the responses to a sink.
#![tactic(auto)]

mod answerer;
mod connection_end;
mod exchange;
mod input_buffer;
pub mod laws;
mod turns;

pub use answerer::Answerer;
pub use api_routes::{Answer, Request};
pub use connection_end::ConnectionEnd;
pub use turns::serve;
