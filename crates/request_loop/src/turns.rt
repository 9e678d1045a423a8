//! The loop: requests from a source, answered to a sink, one after another.
ghost use Rattle.std.specs.Prelude.{◌≡◌, ◌==◌, ◌≤◌, ◌<◌, ◌+◌, ◌||◌, [], Some, List, ℕ};
ghost use Rattle.outside_world.specs.Faults.{Rose};
ghost use Rattle.http_model.specs.Requests.{part, IsFront};
ghost use Rattle.http_wire.specs.Reading.{KnowsNothing};
ghost use Rattle.request_loop.specs.Ending.{Ends, ended_by, RefusedWith};
ghost use Rattle.request_loop.specs.Serving.{Served};

use crate::answerer::Answerer;
use crate::connection_end::ConnectionEnd;
use crate::exchange::{exchange, respond};
use crate::input_buffer::InputBuffer;
use api_routes::Answer;
use http_wire::{Next, RequestReader};
use outside_world::{Clock, Sink, Source};
use std::alloc::Global;

/// Has the requests of the source answered to the sink, until the input ends, is refused, asks for
/// closing, or so many were answered as the limit says.
///
/// Each response reaches the sink before the next read. Requests that came in one read are answered
/// one after another. Its cost is that of the bytes: no byte is moved for a request that is taken
/// from the front, and a head is searched once however it comes.
pub fn serve<A: Answerer, S: Source, K: Sink, C: Clock>(
    alloc: Global,
    limit: usize,
    answerer: &mut A,
    source: &mut S,
    sink: &mut K,
    clock: &mut C,
) -> ConnectionEnd
    requires some { 0 < limit }
    requires may { A.may_answer answerer.old limit }
    ensures ends { (bytes : List ℕ) → S.left source.old ≡ Some bytes
        → Ends (Served A.answers A.gives_up limit answerer.old answerer.new bytes
        (S.left source.new) (C.coming clock.old) (C.coming clock.new)) limit
        (S.left source.new) (K.taken sink.old) (K.taken sink.new) result }
    ensures read_fault { result ≡ ConnectionEnd.ReadFault → Rose (S.faults source.old) (S.faults source.new) }
    ensures write_fault { result ≡ ConnectionEnd.WriteFault → Rose (K.faults sink.old) (K.faults sink.new) }
{
    let Ok(mut buffer) = InputBuffer::new(alloc) else {
        return ConnectionEnd::Memory;
    };
    let Ok(mut reader) = RequestReader::new(alloc) else {
        return ConnectionEnd::Memory;
    };
    serve_from(
        alloc,
        limit,
        answerer,
        &mut buffer,
        &mut reader,
        source,
        sink,
        clock,
    )
}

/// Has the requests of the source answered, with a buffer that is empty and a reader that is new.
fn serve_from<A: Answerer, S: Source, K: Sink, C: Clock>(
    alloc: Global,
    limit: usize,
    answerer: &mut A,
    buffer: &mut InputBuffer,
    reader: &mut RequestReader,
    source: &mut S,
    sink: &mut K,
    clock: &mut C,
) -> ConnectionEnd
    requires some { 0 < limit }
    requires may { A.may_answer answerer.old limit }
    requires empty { buffer.old ≡ [] }
    requires new { KnowsNothing reader.old }
    ensures ends { (bytes : List ℕ) → S.left source.old ≡ Some bytes
        → Ends (Served A.answers A.gives_up limit answerer.old answerer.new bytes
        (S.left source.new) (C.coming clock.old) (C.coming clock.new)) limit
        (S.left source.new) (K.taken sink.old) (K.taken sink.new) result }
    ensures read_fault { result ≡ ConnectionEnd.ReadFault → Rose (S.faults source.old) (S.faults source.new) }
    ensures write_fault { result ≡ ConnectionEnd.WriteFault → Rose (K.faults sink.old) (K.faults sink.new) }
{
    let mut answered = 0;
    'turns: loop {
        match reader.next(buffer.bytes()) {
            Next::Whole(request, used) => {
                let last = is_last(limit, request.close, answered);
                match exchange(alloc, answerer, &request, last, sink, clock) {
                    Ok(()) => {}
                    Err(why) => return ConnectionEnd::from(why),
                }
                answered += 1;
                if answered == limit {
                    return ConnectionEnd::Spent;
                }
                if request.close {
                    return ConnectionEnd::Closed;
                }
                buffer.skip(used);
            }
            Next::Refused(status) => return refused(alloc, status, sink),
            Next::Partial => match buffer.fill(source) {
                Ok(0) => return ended(buffer.bytes()),
                Ok(_) => {}
                Err(_) => return ConnectionEnd::ReadFault,
            },
        }
    }
}

/// Whether a connection ends after a request, before which so many were answered: it asks for
/// closing, or reaches the limit.
fn is_last(limit: usize, close: bool, answered: usize) -> bool
    requires { answered < limit }
    ensures { result ≡ (close || (answered + 1 == limit)) }
{
    if close {
        return true;
    }
    answered + 1 == limit
}

/// The end of a connection whose input ends with less than a request left.
fn ended(bytes: &[u8]) -> ConnectionEnd
    requires { IsFront bytes.now part }
    ensures { result ≡ ended_by bytes.now }
{
    if bytes.is_empty() {
        return ConnectionEnd::Closed;
    }
    ConnectionEnd::Cut(bytes.len() as u32)
}

/// The end of a connection at a request that is refused with a status, with its response.
fn refused<K: Sink>(alloc: Global, status: u16, sink: &mut K) -> ConnectionEnd
    ensures response { RefusedWith status (K.taken sink.old) (K.taken sink.new) result }
    ensures later { K.faults sink.old ≤ K.faults sink.new }
    ensures failed { result ≡ ConnectionEnd.WriteFault → Rose (K.faults sink.old) (K.faults sink.new) }
{
    match respond(alloc, &Answer::Head(status), true, sink) {
        Ok(()) => ConnectionEnd::Refused(status),
        Err(why) => ConnectionEnd::from(why),
    }
}
