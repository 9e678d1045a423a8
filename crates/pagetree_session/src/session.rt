//! The session: requests from a source, answered to a sink by a store on a disk.
ghost use Rattle.std.specs.Prelude.{◌≡◌, Some, List, ℕ};
ghost use Rattle.outside_world.specs.Faults.{Rose};
ghost use Rattle.request_loop.specs.Ending as loops;
ghost use Rattle.request_loop.specs.declared.connection_end.ConnectionEnd.{ConnectionEnd};
ghost use Rattle.wire_model.specs.Exchange.{Past};
ghost use Rattle.pagetree_session.specs.Ending.{Ends, IsServed, MovesOn, status_of};
ghost use Rattle.pagetree_session.specs.Standing.{IsReady, HasKept, MayAnswer, Answered, Keeps, seen_store};

use crate::answer::answer_request;
use crate::status::Status;
use api_routes::Routes;
use outside_world::{Clock, Sink, Source};
use request_loop::{Answer, Answerer, Request, serve};
use site_store::{Disk, Store};
use site_types::{Moment, NoMemory};
use std::alloc::Global;

/// How many requests a session answers at most.
pub const ANSWER_LIMIT: usize = 1_000_000;

/// How a command ended, and the disk that was handed to it.
#[derive(Drop)]
pub struct CommandEnd<D> {
    /// How it ended.
    pub status: Status,
    /// The disk.
    pub disk: D,
}

/// What answers the requests of a session: the routes, which are made once, and the store.
#[derive(Drop)]
pub struct Session<D> {
    routes: Routes,
    store: Store<D>,
}

impl<D: Disk> Answerer for Session<D> {
    ghost may_answer = { λ session _.
        MayAnswer (seen_store D.size D.past D.fault_count session.store) };

    ghost answers = { λ before request moment answer after.
        Answered (D.is_honest before.store.disk)
        (seen_store D.size D.past D.fault_count before.store) request moment answer
        (D.is_honest after.store.disk) (seen_store D.size D.past D.fault_count after.store) };

    ghost gives_up = { λ before after. Keeps (D.is_honest before.store.disk)
        (seen_store D.size D.past D.fault_count before.store)
        (D.is_honest after.store.disk) (seen_store D.size D.past D.fault_count after.store) };

    // It reads the body once, and costs what its call costs.
    fn answer(
        &mut self,
        alloc: Global,
        request: &Request<'_>,
        now: Moment,
    ) -> Result<Answer, NoMemory> {
        answer_request(alloc, &self.routes, &mut self.store, request, now)
    }
}

/// Answers the requests of the source to the sink, from what the disk has on, until the input ends, is
/// refused, asks for closing or was answered 1,000,000 times. The routes are made before the disk is
/// opened, so that nothing is done to it if memory does not suffice for them.
pub fn run_session<S: Source, K: Sink, C: Clock, D: Disk>(
    alloc: Global,
    source: &mut S,
    sink: &mut K,
    disk: D,
    clock: &mut C,
) -> CommandEnd<D>
    ensures ends { (bytes : List ℕ) → S.left source.old ≡ Some bytes
        → Ends (D.is_honest disk)
        (record { past = D.past disk; count = D.fault_count disk })
        (record { past = D.past result.disk; count = D.fault_count result.disk })
        bytes (C.coming clock.old)
        (MovesOn (C.coming clock.old) (C.coming clock.new)) (S.left source.new)
        (K.taken sink.old) (K.taken sink.new) result.status }
    ensures known { result.status ≡ Status.Usage → ⊥ }
    ensures read_fault { result.status ≡ Status.ReadFault
        → Rose (S.faults source.old) (S.faults source.new) }
    ensures write_fault { result.status ≡ Status.WriteFault
        → Rose (K.faults sink.old) (K.faults sink.new) }
{
    let Ok(routes) = Routes::new(alloc) else {
        return CommandEnd {
            status: Status::Memory,
            disk,
        };
    };
    match Store::open(alloc, disk) {
        Ok(store) => serve_store(alloc, Session { routes, store }, source, sink, clock),
        Err((fault, disk)) => CommandEnd {
            status: Status::from(fault),
            disk,
        },
    }
}

/// Answers the requests of the source by a session whose store was opened, and gives its disk back.
fn serve_store<S: Source, K: Sink, C: Clock, D: Disk>(
    alloc: Global,
    session: Session<D>,
    source: &mut S,
    sink: &mut K,
    clock: &mut C,
) -> CommandEnd<D>
    requires { MayAnswer (seen_store D.size D.past D.fault_count session.store) }
    ensures served { (begin : Past) (bytes : List ℕ)
        → IsReady (seen_store D.size D.past D.fault_count session.store) begin
        → S.left source.old ≡ Some bytes
        → (end : ConnectionEnd) × (result.status ≡ status_of end)
        × loops.Ends (IsServed (D.is_honest session.store.disk
        × HasKept (seen_store D.size D.past D.fault_count session.store) begin)
        (record { past = D.past result.disk; count = D.fault_count result.disk }) begin
        (D.fault_count session.store.disk) bytes (C.coming clock.old)
        (MovesOn (C.coming clock.old) (C.coming clock.new)) (S.left source.new)) ANSWER_LIMIT
        (S.left source.new) (K.taken sink.old) (K.taken sink.new) end }
    ensures known { result.status ≡ Status.Usage → ⊥ }
    ensures read_fault { result.status ≡ Status.ReadFault
        → Rose (S.faults source.old) (S.faults source.new) }
    ensures write_fault { result.status ≡ Status.WriteFault
        → Rose (K.faults sink.old) (K.faults sink.new) }
{
    let mut session = session;
    let end = serve(alloc, ANSWER_LIMIT, &mut session, source, sink, clock);
    CommandEnd {
        status: Status::from(end),
        disk: session.store.into_disk(),
    }
}
