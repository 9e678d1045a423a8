//! The exchange of one request: its moment, its answer, and the response to the sink.
ghost use Rattle.std.specs.Prelude.{◌≡◌, ◌+◌, ◌≤◌, ℕ, IfOk, IsErrOf};
ghost use Rattle.outside_world.specs.Faults.{Rose};
ghost use Rattle.http_wire.specs.Reading.{request_of};
ghost use Rattle.wire_model.specs.Transcript.{answer_text};
ghost use Rattle.request_loop.specs.Exchanging.{Exchanges, Responds, Writes, stopped_by};

use crate::answerer::Answerer;
use crate::connection_end::ConnectionEnd;
use api_routes::{Answer, memory_text, to_response};
use http_wire::{Request, write_response};
use outside_world::{Clock, Sink, write_all};
use site_ids::{Bytes, Moment, NoMemory};
use std::alloc::Global;

/// Why an exchange stopped.
#[derive(Clone, Copy, Debug, PartialEq, Eq)]
pub enum Interrupted {
    /// Memory ran out before the request was answered.
    BeforeAnswer,
    /// Memory ran out once the request was answered: nothing of the response was written.
    BeforeWriting,
    /// A write failed within the response.
    InWriting,
}

impl From<Interrupted> for ConnectionEnd {
    ghost from_gives = { λ why end. end ≡ stopped_by why };

    fn from(why: Interrupted) -> ConnectionEnd {
        match why {
            Interrupted::BeforeAnswer => ConnectionEnd::Memory,
            Interrupted::BeforeWriting => ConnectionEnd::Memory,
            Interrupted::InWriting => ConnectionEnd::WriteFault,
        }
    }
}

/// Reads the clock, has a request answered and writes the response; `last` if the connection then
/// ends.
pub fn exchange<A: Answerer, K: Sink, C: Clock>(
    alloc: Global,
    answerer: &mut A,
    request: &Request<'_>,
    last: bool,
    sink: &mut K,
    clock: &mut C,
) -> Result<(), Interrupted>
    requires { (more : ℕ) × A.may_answer answerer.old (more + 1) }
    ensures exchanged { Exchanges A.answers A.gives_up (C.coming clock.old 0)
        (request_of request.now) last answerer.old answerer.new (K.taken sink.old)
        (K.taken sink.new) result }
    ensures may { (more : ℕ) → A.may_answer answerer.old (more + 1)
        → IfOk result (λ _. A.may_answer answerer.new more) }
    ensures clock { (k : ℕ) → C.coming clock.new k ≡ C.coming clock.old (k + 1) }
    ensures later { K.faults sink.old ≤ K.faults sink.new }
    ensures failed { IsErrOf result Interrupted.InWriting → Rose (K.faults sink.old) (K.faults sink.new) }
{
    let Some(now) = Moment::new(clock.now()) else {
        unreachable!()
    };
    let answer = match answerer.answer(alloc, request, now) {
        Ok(answer) => answer,
        Err(_) => return Err(Interrupted::BeforeAnswer),
    };
    respond(alloc, &answer, last, sink)
}

/// Writes the response to an answer; `last` if the connection then ends. That of `Answer::Memory` is
/// a constant text, and takes no memory.
pub fn respond<K: Sink>(
    alloc: Global,
    answer: &Answer,
    last: bool,
    sink: &mut K,
) -> Result<(), Interrupted>
    ensures responded { Responds answer.now last (K.taken sink.old) (K.taken sink.new) result }
    ensures later { K.faults sink.old ≤ K.faults sink.new }
    ensures failed { IsErrOf result Interrupted.InWriting → Rose (K.faults sink.old) (K.faults sink.new) }
{
    if let Answer::Memory = answer {
        return write_text(memory_text(last), sink);
    }
    let text = match answer_response(alloc, answer, last) {
        Ok(text) => text,
        Err(_) => return Err(Interrupted::BeforeWriting),
    };
    write_text(text.as_slice(), sink)
}

/// Writes the text of a response.
fn write_text<K: Sink>(text: &[u8], sink: &mut K) -> Result<(), Interrupted>
    ensures written { Writes text.now (K.taken sink.old) (K.taken sink.new) result }
    ensures later { K.faults sink.old ≤ K.faults sink.new }
    ensures failed { IsErrOf result Interrupted.InWriting → Rose (K.faults sink.old) (K.faults sink.new) }
{
    match write_all(sink, text) {
        Ok(()) => Ok(()),
        Err(_) => Err(Interrupted::InWriting),
    }
}

/// The text of the response to an answer; `last` if the connection then ends.
fn answer_response(alloc: Global, answer: &Answer, last: bool) -> Result<Bytes, NoMemory>
    ensures { IfOk result (λ text. text ≡ answer_text answer.now last) }
{
    let response = to_response(alloc, answer)?;
    write_response(alloc, &response, last)
}
