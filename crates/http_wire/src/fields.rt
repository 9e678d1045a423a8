//! What the fields of a head say: the length of the body, the token, and whether to close.
ghost use Rattle.std.specs.Prelude.{◌≡◌, ◌++◌, ◌∷◌, [], ℕ, List, All, length, map};
ghost use Rattle.std.specs.Char.{is_ascii_graphic};
ghost use Rattle.std.specs.List.{list_all};
ghost use Rattle.std.specs.Option.{option_copied};
ghost use Rattle.httparse.specs.Spans.{IsHeaderWithin, header_bytes};
ghost use Rattle.http_model.specs.Fields.{values_named, number_in, body_length, is_plain, token_in, token_behind, token_of, is_token, asks_for_closing};
ghost use Rattle.http_wire.specs.Fielding.{IsNamed, TellsLength};

use crate::words::{has_close, same_word, skip_spaces};
use http_model::{
    AUTHORIZATION_NAME, BEARER, CONNECTION_NAME, CONTENT_LENGTH_NAME, MAX_BODY, MAX_TOKEN,
    TRANSFER_ENCODING_NAME,
};
use httparse::spans::HeaderSpan;

/// The fields of one name.
#[derive(Drop)]
pub enum Named<'b> {
    /// There is none.
    Absent,
    /// There is one, with this value.
    One(&'b [u8]),
    /// There are more.
    Many,
}

/// What the fields say of the length of the body.
#[derive(Drop)]
pub enum BodyLength {
    /// The body has so many bytes, at most `MAX_BODY`.
    Known(usize),
    /// It has more.
    TooLong,
    /// There is more than one field, or it is no number.
    Unclear,
}

impl<'b> Named<'b> {
    /// The fields with one more of the name.
    fn and(self, value: &'b [u8]) -> Named<'b>
        ensures { (values : List (List ℕ)) → IsNamed self.entry values
            → IsNamed result (values ++ value.now ∷ []) }
    {
        match self {
            Named::Absent => Named::One(value),
            _ => Named::Many,
        }
    }
}

/// The fields of this name, in any case.
fn find<'b>(head: &'b [u8], fields: &[HeaderSpan], name: &[u8]) -> Named<'b>
    requires { All (IsHeaderWithin (length head.now)) fields.now }
    ensures { IsNamed result (values_named name.now (map (header_bytes head.now) fields.now)) }
{
    let mut found = Named::Absent;
    for field in fields {
        if same_word(field.name.of(head), name) {
            found = found.and(field.value.of(head));
        }
    }
    found
}

/// The number that a value writes in one or more decimal digits, whatever their count.
fn read_number(value: &[u8]) -> BodyLength
    ensures { TellsLength result (number_in value.now) }
{
    if value.is_empty() {
        return BodyLength::Unclear;
    }
    let mut n: usize = 0;
    for b in value {
        if !b.is_ascii_digit() {
            return BodyLength::Unclear;
        }
        n = (n * 10 + usize::from(*b - b'0')).min(MAX_BODY + 1);
    }
    if n > MAX_BODY {
        return BodyLength::TooLong;
    }
    BodyLength::Known(n)
}

/// The length of the body: 0 where no field tells it.
pub fn body_length(head: &[u8], fields: &[HeaderSpan]) -> BodyLength
    requires { All (IsHeaderWithin (length head.now)) fields.now }
    ensures { TellsLength result (body_length (map (header_bytes head.now) fields.now)) }
{
    match find(head, fields, CONTENT_LENGTH_NAME) {
        Named::Absent => BodyLength::Known(0),
        Named::One(value) => read_number(value),
        Named::Many => BodyLength::Unclear,
    }
}

/// Whether no field names a coding of the body.
pub fn is_plain(head: &[u8], fields: &[HeaderSpan]) -> bool
    requires { All (IsHeaderWithin (length head.now)) fields.now }
    ensures { result ≡ is_plain (map (header_bytes head.now) fields.now) }
{
    match find(head, fields, TRANSFER_ENCODING_NAME) {
        Named::Absent => true,
        _ => false,
    }
}

/// Whether these bytes are a token: 1 to 128 bytes from `!` to `~`.
fn is_token(bytes: &[u8]) -> bool
    ensures { result ≡ is_token bytes.now }
{
    if bytes.is_empty() {
        return false;
    }
    if bytes.len() > MAX_TOKEN {
        return false;
    }
    are_graphic(bytes)
}

/// Whether each byte is one from `!` to `~`.
fn are_graphic(bytes: &[u8]) -> bool
    ensures { result ≡ list_all is_ascii_graphic bytes.now }
{
    bytes.iter().all(|b| b.is_ascii_graphic())
}

/// The token after one or more spaces.
fn token_behind(bytes: &[u8]) -> Option<&[u8]>
    ensures { option_copied result ≡ token_behind bytes.now }
{
    let token = skip_spaces(bytes);
    if token.len() < bytes.len() && is_token(token) {
        Some(token)
    } else {
        None
    }
}

/// The token in a value: `Bearer` in any case, one or more spaces, and the token.
fn token_in(value: &[u8]) -> Option<&[u8]>
    ensures { option_copied result ≡ token_in value.now }
{
    let end = value.len().min(BEARER.len());
    if same_word(&value[..end], BEARER) {
        token_behind(&value[end..])
    } else {
        None
    }
}

/// The token, where there is one field with it.
pub fn token<'b>(head: &'b [u8], fields: &[HeaderSpan]) -> Option<&'b [u8]>
    requires { All (IsHeaderWithin (length head.now)) fields.now }
    ensures { option_copied result ≡ token_of (map (header_bytes head.now) fields.now) }
{
    match find(head, fields, AUTHORIZATION_NAME) {
        Named::One(value) => token_in(value),
        _ => None,
    }
}

/// Whether a field `Connection` asks for the end of the connection.
pub fn asks_for_closing(head: &[u8], fields: &[HeaderSpan]) -> bool
    requires { All (IsHeaderWithin (length head.now)) fields.now }
    ensures { result ≡ asks_for_closing (map (header_bytes head.now) fields.now) }
{
    for field in fields {
        if field_closes(head, field) {
            return true;
        }
    }
    false
}

/// Whether this field asks for the end of the connection.
fn field_closes(head: &[u8], field: &HeaderSpan) -> bool
    requires { IsHeaderWithin (length head.now) field.now }
    ensures { result ≡ asks_for_closing (header_bytes head.now field.now ∷ []) }
{
    if !same_word(field.name.of(head), CONNECTION_NAME) {
        return false;
    }
    has_close(field.value.of(head))
}
