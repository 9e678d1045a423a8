//! Status codes of responses (RFC 9110, section 15).
ghost use Rattle.std.specs.Prelude.{◌≡◌};
ghost use Rattle.http_model.specs.Responses.{status_number, phrase};

/// The status of a response.
#[derive(Clone, Copy, Debug, PartialEq, Eq)]
pub enum StatusCode {
    /// 200 OK.
    Ok,
    /// 400 Bad Request.
    BadRequest,
    /// 401 Unauthorized.
    Unauthorized,
    /// 403 Forbidden.
    Forbidden,
    /// 404 Not Found.
    NotFound,
    /// 405 Method Not Allowed.
    MethodNotAllowed,
    /// 409 Conflict.
    Conflict,
    /// 413 Content Too Large.
    ContentTooLarge,
    /// 431 Request Header Fields Too Large (RFC 6585, section 5).
    HeaderFieldsTooLarge,
    /// 500 Internal Server Error.
    ServerError,
    /// 501 Not Implemented.
    NotImplemented,
    /// 503 Service Unavailable.
    Unavailable,
}

impl StatusCode {
    /// The number of the status.
    pub fn number(&self) -> u16
        ensures { result ≡ status_number self.now }
    {
        match self {
            StatusCode::Ok => 200,
            StatusCode::BadRequest => 400,
            StatusCode::Unauthorized => 401,
            StatusCode::Forbidden => 403,
            StatusCode::NotFound => 404,
            StatusCode::MethodNotAllowed => 405,
            StatusCode::Conflict => 409,
            StatusCode::ContentTooLarge => 413,
            StatusCode::HeaderFieldsTooLarge => 431,
            StatusCode::ServerError => 500,
            StatusCode::NotImplemented => 501,
            StatusCode::Unavailable => 503,
        }
    }

    /// The phrase after the number in a status line.
    pub fn phrase(&self) -> &'static [u8]
        ensures { result.now ≡ phrase self.now }
    {
        match self {
            StatusCode::Ok => b"OK",
            StatusCode::BadRequest => b"Bad Request",
            StatusCode::Unauthorized => b"Unauthorized",
            StatusCode::Forbidden => b"Forbidden",
            StatusCode::NotFound => b"Not Found",
            StatusCode::MethodNotAllowed => b"Method Not Allowed",
            StatusCode::Conflict => b"Conflict",
            StatusCode::ContentTooLarge => b"Content Too Large",
            StatusCode::HeaderFieldsTooLarge => b"Request Header Fields Too Large",
            StatusCode::ServerError => b"Internal Server Error",
            StatusCode::NotImplemented => b"Not Implemented",
            StatusCode::Unavailable => b"Service Unavailable",
        }
    }
}
