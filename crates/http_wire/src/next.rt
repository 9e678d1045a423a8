//! What stands at the front of bytes.

use http_model::Method;

/// A request. It borrows the bytes that it was read from.
#[derive(Drop)]
pub struct Request<'b> {
    /// The method.
    pub method: Method,
    /// The target as it stands, before its first `?`.
    pub path: &'b [u8],
    /// The token of the one field `Authorization: Bearer TOKEN`.
    pub token: Option<&'b [u8]>,
    /// The body.
    pub body: &'b [u8],
    /// Whether the connection ends after the answer.
    pub close: bool,
}

/// What stands at the front of bytes.
#[derive(Drop)]
pub enum Next<'b> {
    /// A whole request, which takes so many bytes.
    Whole(Request<'b>, usize),
    /// Less than a request, which more bytes may complete.
    Partial,
    /// What is refused with this status: 400, 413 or 431.
    Refused(u16),
}
