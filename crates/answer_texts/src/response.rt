//! The response to an answer.
ghost use Rattle.std.specs.Prelude.{◌≡◌, false, IfOk};
ghost use Rattle.serde_json.specs.View.{view};
ghost use Rattle.serde_json.specs.Written.{compact_text, has_float};
ghost use Rattle.http_wire.specs.Responding as wire;
ghost use Rattle.http_model.specs.Responses.{response_text};
ghost use Rattle.wire_model.specs.Answers.{head_status, head_error, error_data, disk_data, plain_response, response_of};

use crate::card::card_value;
use crate::public::public_value;
use crate::refs::refs_value;
use crate::refusal::{refusal_status, refusal_value};
use crate::reply::reply_value;
use block_content::write_content;
use http_wire::{Response, StatusCode};
use serde_json::{Value, json};
use site_types::{Bytes, NoMemory};
use std::alloc::Global;
use wire_model::Answer;

/// The response to an answer: its status, its body of JSON, and at 405 the method that the route
/// takes. It fails only if memory runs out.
#[tactic(auto, unfolding(wire_model::specs::Answers::response_of))]
pub fn to_response(alloc: Global, answer: &Answer) -> Result<Response, NoMemory>
    ensures { IfOk result (λ response. wire.response_of response ≡ response_of answer.now) }
{
    match answer {
        Answer::Accepted(entry, reply) => {
            let value = reply_value(alloc, *entry, reply)?;
            plain(alloc, StatusCode::Ok, &value)
        }
        Answer::Public(card) => {
            let value = public_value(alloc, card)?;
            plain(alloc, StatusCode::Ok, &value)
        }
        Answer::Page(card) => {
            let value = card_value(alloc, card)?;
            plain(alloc, StatusCode::Ok, &value)
        }
        Answer::Refs(refs) => {
            let value = refs_value(alloc, refs)?;
            plain(alloc, StatusCode::Ok, &value)
        }
        Answer::Desk(text) => {
            let value = write_content(alloc, text)?;
            plain(alloc, StatusCode::Ok, &value)
        }
        Answer::Refused(refusal) => {
            let value = refusal_value(alloc, refusal)?;
            plain(alloc, refusal_status(refusal), &value)
        }
        Answer::NotFound => named(alloc, StatusCode::NotFound, "NotFound"),
        Answer::NotBuilt => named(alloc, StatusCode::NotImplemented, "NotBuilt"),
        Answer::Method(allow) => {
            let mut response = named(alloc, StatusCode::MethodNotAllowed, "Method")?;
            response.allow = Some(*allow);
            Ok(response)
        }
        Answer::Form => named(alloc, StatusCode::BadRequest, "Form"),
        Answer::NoUser => named(alloc, StatusCode::Unauthorized, "NoUser"),
        Answer::Head(status) => named(alloc, head_status(*status), head_error(*status)),
        Answer::Disk(before, after) => {
            let value = disk_value(alloc, *before, *after)?;
            plain(alloc, StatusCode::ServerError, &value)
        }
        Answer::Memory => named(alloc, StatusCode::Unavailable, "Memory"),
    }
}

/// The text of the response to `Answer::Memory`, if the connection goes on.
const MEMORY_TEXT: &[u8] =
    b"HTTP/1.1 503 Service Unavailable\r\nContent-Length: 18\r\nContent-Type: application/json\r\n\r\n\
      {\"error\":\"Memory\"}";

/// The same text if the connection ends after it.
const LAST_MEMORY_TEXT: &[u8] =
    b"HTTP/1.1 503 Service Unavailable\r\nContent-Length: 18\r\nContent-Type: application/json\r\n\
      Connection: close\r\n\r\n{\"error\":\"Memory\"}";

/// The text of the response to `Answer::Memory`; `last` if the connection ends after it. It takes no
/// memory.
#[tactic(auto, unfolding(wire_model::specs::Answers::response_of))]
pub fn memory_text(last: bool) -> &'static [u8]
    ensures { result.now ≡ response_text (response_of Answer.Memory) last }
{
    if last { LAST_MEMORY_TEXT } else { MEMORY_TEXT }
}

/// The body that tells of a disk that failed, with its counts of faults before the call and after.
fn disk_value(alloc: Global, before: u64, after: u64) -> Result<Value, NoMemory>
    ensures { IfOk result (λ value. view value ≡ disk_data before after) }
{
    Ok(json!(in alloc; {"after": after, "before": before, "error": "Disk"})?)
}

/// The response with this status, whose body names an error.
fn named(alloc: Global, status: StatusCode, name: &str) -> Result<Response, NoMemory>
    ensures { IfOk result (λ response. wire.response_of response
        ≡ plain_response status (error_data name.now)) }
{
    let value = error_value(alloc, name)?;
    plain(alloc, status, &value)
}

/// The body that names an error.
fn error_value(alloc: Global, name: &str) -> Result<Value, NoMemory>
    ensures { IfOk result (λ value. view value ≡ error_data name.now) }
{
    Ok(json!(in alloc; {"error": name})?)
}

/// The response with this status and this value as its body.
fn plain(alloc: Global, status: StatusCode, value: &Value) -> Result<Response, NoMemory>
    requires { has_float (view value.now) ≡ false }
    ensures { IfOk result (λ response. wire.response_of response
        ≡ plain_response status (view value.now)) }
{
    let body = body_text(alloc, value)?;
    Ok(Response {
        status,
        body,
        allow: None,
    })
}

/// The compact text of a value that has no float.
fn body_text(alloc: Global, value: &Value) -> Result<Bytes, NoMemory>
    requires { has_float (view value.now) ≡ false }
    ensures { IfOk result (λ body. body ≡ compact_text (view value.now)) }
{
    let text = value.to_string(alloc)?;
    Ok(Bytes::from_vec(text.into_bytes()))
}

/// The status with which a head is refused: 413 or 431 by its number, else 400.
fn head_status(status: u16) -> StatusCode
    ensures { result ≡ head_status status }
{
    if status == StatusCode::ContentTooLarge.number() {
        return StatusCode::ContentTooLarge;
    }
    if status == StatusCode::HeaderFieldsTooLarge.number() {
        return StatusCode::HeaderFieldsTooLarge;
    }
    StatusCode::BadRequest
}

/// The name of the error of a head that is refused: `TooLarge` for 413 and 431, else `Head`.
fn head_error(status: u16) -> &'static str
    ensures { result.now ≡ head_error status }
{
    match head_status(status) {
        StatusCode::BadRequest => "Head",
        _ => "TooLarge",
    }
}
