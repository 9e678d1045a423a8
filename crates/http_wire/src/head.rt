//! Heads of requests.
ghost use Rattle.std.specs.Prelude.{◌≡◌, ◌≤◌, ◌==◌, ℕ, List, All, position, length, map, IfOk, IfErr};
ghost use Rattle.httparse.specs.Spans.{IsHeaderWithin, header_bytes};
ghost use Rattle.http_model.specs.Requests.{method_named, path_in, closes};
ghost use Rattle.http_model.specs.declared.words.TheConstants.{MAX_FIELDS, MAX_BODY};
ghost use Rattle.http_wire.specs.Reading.{MakesFront, front_of_parts, HasHeadFront};

use crate::fields::{BodyLength, asks_for_closing, body_length, is_plain, token};
use crate::scan::line_ends;
use http_model::{GET, MAX_FIELDS, MAX_LINE_ENDS, Method, POST};
use httparse::Status;
use httparse::spans::{HeaderSpan, parse_request};

/// What a head says of its request, and the length of the body.
#[derive(Drop)]
pub struct Head<'b> {
    pub method: Method,
    pub path: &'b [u8],
    pub token: Option<&'b [u8]>,
    pub close: bool,
    pub length: usize,
}

/// The method that these bytes name.
fn method_named(name: &[u8]) -> Method
    ensures { result ≡ method_named name.now }
{
    if name == GET {
        Method::Get
    } else if name == POST {
        Method::Post
    } else {
        Method::Other
    }
}

/// The target before its first `?`.
fn path_in(target: &[u8]) -> &[u8]
    ensures { result.now ≡ path_in target.now }
{
    match query_place(target) {
        Some(end) => &target[..end],
        None => target,
    }
}

/// The place of the first `?`.
fn query_place(target: &[u8]) -> Option<usize>
    ensures { result ≡ position (λ b. b == 63) target.now }
{
    target.iter().position(|b| *b == b'?')
}

/// Whether a request of this minor version and with these fields asks for closing.
fn closes(minor: u8, head: &[u8], fields: &[HeaderSpan]) -> bool
    requires { All (IsHeaderWithin (length head.now)) fields.now }
    ensures { result ≡ closes minor (map (header_bytes head.now) fields.now) }
{
    minor == 0 || asks_for_closing(head, fields)
}

/// The head of these parts, or the status with which it is refused.
fn judge_parts<'b>(
    name: &[u8],
    target: &'b [u8],
    minor: u8,
    head: &'b [u8],
    fields: &[HeaderSpan],
) -> Result<Head<'b>, u16>
    requires { All (IsHeaderWithin (length head.now)) fields.now }
    ensures front { MakesFront result
        (front_of_parts name.now target.now minor (map (header_bytes head.now) fields.now)) }
    ensures small { IfOk result (λ read. read.length ≤ MAX_BODY) }
{
    if !is_plain(head, fields) {
        return Err(400);
    }
    match body_length(head, fields) {
        BodyLength::Unclear => Err(400),
        BodyLength::TooLong => Err(413),
        BodyLength::Known(length) => Ok(Head {
            method: method_named(name),
            path: path_in(target),
            token: token(head, fields),
            close: closes(minor, head, fields),
            length,
        }),
    }
}

/// The head that is exactly these bytes, or the status with which they are refused.
///
/// It parses them once; what was found of the fields before is written over.
pub fn read_head<'b>(head: &'b [u8], fields: &mut [HeaderSpan]) -> Result<Head<'b>, u16>
    requires { length fields.old ≡ MAX_FIELDS }
    ensures front { HasHeadFront head.now result }
    ensures small { IfOk result (λ read. read.length ≤ MAX_BODY) }
{
    if line_ends(head) > MAX_LINE_ENDS {
        return Err(431);
    }
    let Ok(Status::Complete(spans)) = parse_request(head, fields) else {
        return Err(400);
    };
    if spans.len < head.len() {
        return Err(400);
    }
    let name = spans.method.of(head);
    let target = spans.path.of(head);
    judge_parts(name, target, spans.version, head, &fields[..spans.headers])
}
