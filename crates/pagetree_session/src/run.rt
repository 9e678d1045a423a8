//! The call that the program makes.
ghost use Rattle.std.specs.Prelude.{◌≡◌, ◌↔◌, Some, None, List, ℕ, IsSome};
ghost use Rattle.outside_world.specs.Faults.{Rose};
ghost use Rattle.pagetree_session.specs.declared.options.Options.{Options as Told};
ghost use Rattle.pagetree_session.specs.Ending.{Ends};
ghost use Rattle.pagetree_session.specs.Words.{session_options, moments, Moves, clock_asked};

use crate::options::Options;
use crate::session::{CommandEnd, run_session};
use crate::status::Status;
use crate::words::Words;
use outside_world::{Clock, MemoryClock, Sink, Source};
use site_store::Disk;
use std::alloc::Global;

/// Runs the command of the words: `session` with its options answers the requests of the source to
/// the sink, and all else is `Status::Usage`.
///
/// The session begins with the site that the disk has, and at a new site if file 3 is empty; the disk
/// is given back with the status. If the bytes of the source are known, what was written is the text
/// of a transcript: of the first requests in the bytes, each with the moment that the clock gave and
/// an answer that it may get, one after another in a history from that site on. If the disk is honest,
/// whatever a crash leaves of it at the end recovers to the end of that history, or to that with the
/// one entry in doubt. `Ends` says which for each status. The clock moves on by one moment a request,
/// and stands if the options ask for another; no read follows the last answer.
pub fn run_command<S: Source, K: Sink, C: Clock, D: Disk>(
    alloc: Global,
    words: &Words,
    source: &mut S,
    sink: &mut K,
    disk: D,
    clock: &mut C,
) -> CommandEnd<D>
    ensures usage { result.status ≡ Status.Usage ↔ (session_options words.now ≡ None) }
    ensures idle { result.status ≡ Status.Usage → (source.new ≡ source.old) × (sink.new ≡ sink.old)
        × (clock.new ≡ clock.old) × (result.disk ≡ disk) }
    ensures ends { (bytes : List ℕ) (options : Told) → session_options words.now ≡ Some options
        → S.left source.old ≡ Some bytes
        → Ends (D.is_honest disk)
        (record { past = D.past disk; count = D.fault_count disk })
        (record { past = D.past result.disk; count = D.fault_count result.disk }) bytes
        (moments options (C.coming clock.old))
        (Moves options (C.coming clock.old) (C.coming clock.new)) (S.left source.new)
        (K.taken sink.old) (K.taken sink.new) result.status }
    ensures unasked { (options : Told) → session_options words.now ≡ Some options
        → IsSome (clock_asked options) → clock.new ≡ clock.old }
    ensures read_fault { result.status ≡ Status.ReadFault
        → Rose (S.faults source.old) (S.faults source.new) }
    ensures write_fault { result.status ≡ Status.WriteFault
        → Rose (K.faults sink.old) (K.faults sink.new) }
{
    match words.session_options() {
        Some(options) => session_with(alloc, options, source, sink, disk, clock),
        None => CommandEnd {
            status: Status::Usage,
            disk,
        },
    }
}

/// Runs a session with these options.
fn session_with<S: Source, K: Sink, C: Clock, D: Disk>(
    alloc: Global,
    options: Options,
    source: &mut S,
    sink: &mut K,
    disk: D,
    clock: &mut C,
) -> CommandEnd<D>
    ensures ends { (bytes : List ℕ) → S.left source.old ≡ Some bytes
        → Ends (D.is_honest disk)
        (record { past = D.past disk; count = D.fault_count disk })
        (record { past = D.past result.disk; count = D.fault_count result.disk }) bytes
        (moments options (C.coming clock.old))
        (Moves options (C.coming clock.old) (C.coming clock.new)) (S.left source.new)
        (K.taken sink.old) (K.taken sink.new) result.status }
    ensures known { result.status ≡ Status.Usage → ⊥ }
    ensures unasked { IsSome (clock_asked options) → clock.new ≡ clock.old }
    ensures read_fault { result.status ≡ Status.ReadFault
        → Rose (S.faults source.old) (S.faults source.new) }
    ensures write_fault { result.status ≡ Status.WriteFault
        → Rose (K.faults sink.old) (K.faults sink.new) }
{
    match clock_of(options) {
        Some(clock) => {
            let mut clock = clock;
            run_session(alloc, source, sink, disk, &mut clock)
        }
        None => run_session(alloc, source, sink, disk, clock),
    }
}

/// The clock in memory that options ask for, if they ask for one.
fn clock_of(options: Options) -> Option<MemoryClock>
    ensures { clock_asked options ≡ result }
{
    match (options.at, options.step) {
        (None, None) => None,
        (at, step) => Some(MemoryClock {
            next: at.unwrap_or(0),
            step: step.unwrap_or(0),
        }),
    }
}
