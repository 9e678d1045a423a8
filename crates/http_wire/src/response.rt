//! Texts of responses.
ghost use Rattle.std.specs.Prelude.{◌≡◌, ◌++◌, IfOk, OnOk};
ghost use Rattle.std.specs.Fmt.{decimal};
ghost use Rattle.http_model.specs.Responses.{status_line, challenge, allowed, allowing, closing, response_text};
ghost use Rattle.http_wire.specs.Responding.{response_of};

use http_model::{
    ALLOW_GET, ALLOW_POST, Allow, CONNECTION_CLOSE, CONTENT_LENGTH, CONTENT_TYPE, LINE_END,
    StatusCode, VERSION, WWW_AUTHENTICATE,
};
use site_ids::{Bytes, NoMemory};
use std::alloc::Global;

/// A response with a body of JSON.
#[derive(Drop)]
pub struct Response {
    /// The status.
    pub status: StatusCode,
    /// The body.
    pub body: Bytes,
    /// The one method that the route takes, which a 405 names.
    pub allow: Option<Allow>,
}

/// The text of a response; `last` where the connection ends after it.
#[tactic(auto, unfolding(http_model::specs::Responses::response_text))]
pub fn write_response(alloc: Global, response: &Response, last: bool) -> Result<Bytes, NoMemory>
    ensures { IfOk result (λ bytes. bytes ≡ response_text (response_of response.now) last) }
{
    let mut text = Vec::new(alloc);
    put_status_line(alloc, &mut text, response.status)?;
    put(&mut text, LINE_END)?;
    put(&mut text, CONTENT_LENGTH)?;
    put_number(alloc, &mut text, response.body.len() as u64)?;
    put(&mut text, LINE_END)?;
    put(&mut text, CONTENT_TYPE)?;
    put(&mut text, challenge(response.status))?;
    put(&mut text, allowing(response.status, response.allow))?;
    put(&mut text, closing(last))?;
    put(&mut text, LINE_END)?;
    put(&mut text, response.body.as_slice())?;
    Ok(Bytes::from_vec(text))
}

/// Appends the status line, without its end.
fn put_status_line(alloc: Global, text: &mut Vec<u8>, status: StatusCode) -> Result<(), NoMemory>
    ensures { OnOk result (text.new.items ≡ text.old.items ++ status_line status) }
{
    put(text, VERSION)?;
    put_number(alloc, text, u64::from(status.number()))?;
    put(text, b" ")?;
    put(text, status.phrase())
}

/// The line that a status asks for: 401 tells how to authorize.
fn challenge(status: StatusCode) -> &'static [u8]
    ensures { result.now ≡ challenge status }
{
    match status {
        StatusCode::Unauthorized => WWW_AUTHENTICATE,
        _ => b"",
    }
}

/// The line that tells the one method that the route takes, at 405.
fn allowing(status: StatusCode, allow: Option<Allow>) -> &'static [u8]
    ensures { result.now ≡ allowing status allow }
{
    match (status, allow) {
        (StatusCode::MethodNotAllowed, Some(allow)) => allowed(allow),
        _ => b"",
    }
}

/// The line that tells this method.
fn allowed(allow: Allow) -> &'static [u8]
    ensures { result.now ≡ allowed allow }
{
    match allow {
        Allow::Get => ALLOW_GET,
        Allow::Post => ALLOW_POST,
    }
}

/// The line that announces the end of the connection, where it ends.
fn closing(last: bool) -> &'static [u8]
    ensures { result.now ≡ closing last }
{
    if last { CONNECTION_CLOSE } else { b"" }
}

/// Appends a number in decimal.
fn put_number(alloc: Global, text: &mut Vec<u8>, number: u64) -> Result<(), NoMemory>
    ensures { OnOk result (text.new.items ≡ text.old.items ++ decimal number) }
{
    let digits = number.to_string(alloc)?;
    put(text, digits.as_bytes())
}

/// Appends a piece.
fn put(text: &mut Vec<u8>, piece: &[u8]) -> Result<(), NoMemory>
    ensures { OnOk result (text.new.items ≡ text.old.items ++ piece.now) }
{
    text.extend_from_slice(piece)?;
    Ok(())
}
