//! Requests of HTTP/1.1 at the front of bytes, and the texts of responses (RFC 9112).
//! Definitions for proofs, laws about them, and the constant texts that they and the code share.
#![tactic(auto)]

pub mod laws;
mod method;
mod status;
mod words;

pub use method::{Allow, Method};
pub use status::StatusCode;
pub use words::{
    ALLOW_GET, ALLOW_POST, AUTHORIZATION_NAME, BEARER, CLOSE, CONNECTION_CLOSE, CONNECTION_NAME,
    CONTENT_LENGTH, CONTENT_LENGTH_NAME, CONTENT_TYPE, GET, LINE_END, MAX_BODY, MAX_FIELDS,
    MAX_HEAD, MAX_LINE_ENDS, MAX_TOKEN, POST, TRANSFER_ENCODING_NAME, VERSION, WWW_AUTHENTICATE,
};
