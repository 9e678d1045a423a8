//! Methods of requests (RFC 9110, section 9), which are compared by bytes.

/// The method of a request.
#[derive(Clone, Copy, Debug, PartialEq, Eq)]
pub enum Method {
    /// `GET`.
    Get,
    /// `POST`.
    Post,
    /// Any other method, `get` among them.
    Other,
}

/// The one method that a route takes, as the header `Allow` tells it.
#[derive(Clone, Copy, Debug, PartialEq, Eq)]
pub enum Allow {
    /// `Allow: GET`.
    Get,
    /// `Allow: POST`.
    Post,
}
