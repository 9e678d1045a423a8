//! A reader of requests that remembers what it has searched.
ghost use Rattle.std.specs.Prelude.{◌≡◌, ◌≤◌, List, ℕ, length, take, drop, Option, IfOk};
ghost use Rattle.http_model.specs.Requests.{head_length, IsHeadFront};
ghost use Rattle.http_wire.specs.Reading.{IsNext, Knows, KnowsNothing, KnowsAfter, front_behind};
ghost use Rattle.http_wire.specs.Scanning.{counted_from};
ghost use Rattle.http_wire.specs.Stepping.{TakesStep};

use crate::head::{Head, read_head};
use crate::next::{Next, Request};
use crate::scan::head_length;
use http_model::{MAX_BODY, MAX_FIELDS, MAX_HEAD};
use httparse::spans::{EMPTY_HEADER_SPAN, HeaderSpan};
use site_ids::NoMemory;
use std::alloc::Global;
use std::marker::Model;

/// Reads requests from the front of a buffer and remembers what it has already searched. A contract
/// sees what it remembers.
#[derive(Drop)]
pub struct RequestReader {
    fields: Vec<HeaderSpan>,
    scanned: usize,
    wanted: usize,
}

impl Model for RequestReader {
    ghost use Rattle.std.specs.Prelude.{◌≡◌, length};
    ghost use Rattle.http_model.specs.declared.words.TheConstants.{MAX_FIELDS};
    ghost use Rattle.http_wire.specs.Reading.{Scan};

    ghost Value = { Scan };

    ghost view = { λ reader. record { scanned = reader.scanned; wanted = reader.wanted } };

    ghost invariant = { λ reader. length reader.fields.items ≡ MAX_FIELDS };
}

/// What a reader does after it looked at bytes.
#[derive(Drop)]
enum Step<'b> {
    /// It answers a whole request, which takes so many bytes.
    Answer(Request<'b>, usize),
    /// It waits: the end of the head is looked for from a place on, once there are so many bytes.
    Wait(usize, usize),
    /// It refuses with a status.
    Refuse(u16),
}

/// What a reader does with the bytes, where the end of their head is looked for from a place on.
fn look<'b>(bytes: &'b [u8], scanned: usize, fields: &mut [HeaderSpan]) -> Step<'b>
    requires room { length fields.old ≡ MAX_FIELDS }
    requires within { scanned ≤ length (take MAX_HEAD bytes.now) }
    requires search { head_length (take MAX_HEAD bytes.now)
        ≡ counted_from scanned (head_length (drop scanned (take MAX_HEAD bytes.now))) }
    ensures { TakesStep bytes.now result }
{
    let window = &bytes[..bytes.len().min(MAX_HEAD)];
    let Some(n) = head_length(window, scanned) else {
        return wait_for_head(bytes);
    };
    look_behind(bytes, n, fields)
}

/// What a reader does with bytes in which no head ends.
fn wait_for_head<'b>(bytes: &[u8]) -> Step<'b>
    requires { head_length (take MAX_HEAD bytes.now) ≡ None }
    ensures { TakesStep bytes.now result }
{
    if bytes.len() < MAX_HEAD {
        // A line end of at most two bytes may follow an LF among the last two.
        Step::Wait(bytes.len().saturating_sub(2), 0)
    } else {
        Step::Refuse(431)
    }
}

/// What a reader does with bytes whose head has the length `n`.
fn look_behind<'b>(bytes: &'b [u8], n: usize, fields: &mut [HeaderSpan]) -> Step<'b>
    requires room { length fields.old ≡ MAX_FIELDS }
    requires found { head_length (take MAX_HEAD bytes.now) ≡ Some n }
    ensures { TakesStep bytes.now result }
{
    match read_head(&bytes[..n], fields) {
        Err(status) => Step::Refuse(status),
        Ok(head) => answer_or_wait(bytes, n, head),
    }
}

/// What a reader does with bytes that begin with this head, which has the length `n`.
fn answer_or_wait<'b>(bytes: &'b [u8], n: usize, head: Head<'b>) -> Step<'b>
    requires found { head_length (take MAX_HEAD bytes.now) ≡ Some n }
    requires small { head.length ≤ MAX_BODY }
    requires front { (rest : List ℕ)
        → IsHeadFront (take n bytes.now) rest (front_behind head rest) }
    ensures { TakesStep bytes.now result }
{
    let end = n + head.length;
    if bytes.len() < end {
        // The LF that the end of the head follows is among its last three bytes.
        return Step::Wait(n.saturating_sub(3), end);
    }
    let request = Request {
        method: head.method,
        path: head.path,
        token: head.token,
        body: &bytes[n..end],
        close: head.close,
    };
    Step::Answer(request, end)
}

impl RequestReader {
    /// A reader that remembers nothing, with room for the places of 64 fields.
    pub fn new(alloc: Global) -> Result<RequestReader, NoMemory>
        ensures { IfOk result KnowsNothing }
    {
        let fields = vec![in alloc; EMPTY_HEADER_SPAN; MAX_FIELDS]?;
        Ok(RequestReader {
            fields,
            scanned: 0,
            wanted: 0,
        })
    }

    /// What stands at the front of the bytes, which are those of the last call and maybe more
    /// after them where that answered `Partial`, and any others else.
    ///
    /// The end of a head is looked for among the bytes that are new. A head is parsed where its end
    /// has come and, where its body had not come yet, once more with the body. Nothing is copied.
    pub fn next<'b>(&mut self, bytes: &'b [u8]) -> Next<'b>
        requires { Knows self.old bytes.now }
        ensures front { IsNext bytes.now result }
        ensures knows { KnowsAfter bytes.now self.new result }
    {
        if bytes.len() < self.wanted {
            return Next::Partial;
        }
        match look(bytes, self.scanned, &mut self.fields) {
            Step::Wait(scanned, wanted) => {
                self.scanned = scanned;
                self.wanted = wanted;
                Next::Partial
            }
            Step::Answer(request, n) => {
                self.forget();
                Next::Whole(request, n)
            }
            Step::Refuse(status) => {
                self.forget();
                Next::Refused(status)
            }
        }
    }

    /// Forgets what was remembered.
    fn forget(&mut self)
        ensures { KnowsNothing self.new }
    {
        self.scanned = 0;
        self.wanted = 0;
    }
}

/// What stands at the front of the bytes: `next` of a new reader.
pub fn next_request<'b>(alloc: Global, bytes: &'b [u8]) -> Result<Next<'b>, NoMemory>
    ensures { IfOk result (IsNext bytes.now) }
{
    let mut reader = RequestReader::new(alloc)?;
    Ok(reader.next(bytes))
}
