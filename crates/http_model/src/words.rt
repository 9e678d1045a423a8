//! The limits of a request, and the constant texts of requests and responses (RFC 9112).

/// The most bytes that a head may have, with its empty line.
pub const MAX_HEAD: usize = 16_384;

/// The most LF that a head may have: a request line, 64 header lines and the empty line.
pub const MAX_LINE_ENDS: usize = 66;

/// The most header lines that a head may have.
pub const MAX_FIELDS: usize = 64;

/// The most bytes that a body may have.
pub const MAX_BODY: usize = 262_144;

/// The most bytes that a token may have.
pub const MAX_TOKEN: usize = 128;

/// The method that reads.
pub const GET: &[u8] = b"GET";

/// The method that writes.
pub const POST: &[u8] = b"POST";

/// The name of the field that tells the length of the body, in lower case as the next three.
pub const CONTENT_LENGTH_NAME: &[u8] = b"content-length";

/// The name of the field that tells of codings of the body, none of which is read.
pub const TRANSFER_ENCODING_NAME: &[u8] = b"transfer-encoding";

/// The name of the field that has the token.
pub const AUTHORIZATION_NAME: &[u8] = b"authorization";

/// The name of the field that can ask for the end of the connection.
pub const CONNECTION_NAME: &[u8] = b"connection";

/// The scheme of authorization before a token (RFC 6750, section 2.1), in lower case.
pub const BEARER: &[u8] = b"bearer";

/// The member of a `Connection` field that asks for the end of the connection, in lower case.
pub const CLOSE: &[u8] = b"close";

/// The front of a status line, up to the number.
pub const VERSION: &[u8] = b"HTTP/1.1 ";

/// The front of the line that tells the length of the body.
pub const CONTENT_LENGTH: &[u8] = b"Content-Length: ";

/// The line that tells the type of the body.
pub const CONTENT_TYPE: &[u8] = b"Content-Type: application/json\r\n";

/// The line that tells how to authorize, where nobody is known by the token.
pub const WWW_AUTHENTICATE: &[u8] = b"WWW-Authenticate: Bearer\r\n";

/// The line that tells that a route takes GET alone.
pub const ALLOW_GET: &[u8] = b"Allow: GET\r\n";

/// The line that tells that a route takes POST alone.
pub const ALLOW_POST: &[u8] = b"Allow: POST\r\n";

/// The line that announces the end of the connection.
pub const CONNECTION_CLOSE: &[u8] = b"Connection: close\r\n";

/// The end of a line.
pub const LINE_END: &[u8] = b"\r\n";
