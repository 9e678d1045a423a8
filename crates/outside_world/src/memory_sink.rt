//! A sink of bytes in memory.
ghost use Rattle.std.specs.Prelude.{◌≡◌, ◌++◌, [], Some, length, IsErr, IfOk, OnOk, OnErr};
ghost use Rattle.outside_world.specs.Calls.{fresh_calls, FailsNext, counted, failed};

use crate::calls::Calls;
use crate::fault::Failed;
use crate::sink::Sink;
use std::alloc::Global;
use std::marker::Model;

/// A sink that keeps the bytes that it takes, and whose calls fail where a list of numbers says so.
#[derive(Drop)]
pub struct MemorySink {
    bytes: Vec<u8>,
    calls: Calls,
}

impl Model for MemorySink {
    ghost use Rattle.outside_world.specs.Memory.{Kept};

    ghost Value = { Kept };

    ghost view = { λ s. record { bytes = s.bytes.items; calls = s.calls } };
}

impl MemorySink {
    /// A sink that took nothing yet, whose calls with the numbers in `fails` fail.
    ///
    /// Calls are numbered from 1; order and repeats do not matter. A call that fails takes nothing.
    pub fn new(alloc: Global, fails: Vec<u64>) -> Self
        ensures bytes { result.bytes ≡ [] }
        ensures calls { result.calls ≡ fresh_calls fails.items }
    {
        MemorySink {
            bytes: Vec::new(alloc),
            calls: Calls::new(fails),
        }
    }

    /// The bytes that it took so far.
    pub fn bytes(&self) -> &[u8]
        ensures { result.now ≡ self.now.bytes }
    {
        self.bytes.as_slice()
    }
}

impl Sink for MemorySink {
    ghost taken = { λ s. Some s.bytes };

    ghost faults = { λ s. s.calls.faults };

    // Refused memory is a fault too.
    fn write(&mut self, piece: &[u8]) -> Result<usize, Failed>
        ensures listed { FailsNext self.old.calls → IsErr result }
        ensures whole { IfOk result (λ n. n ≡ length piece.now) }
        ensures taken { OnOk result (self.new ≡ record {
          bytes = self.old.bytes ++ piece.now;
          calls = counted self.old.calls;
        }) }
        ensures kept { OnErr result (self.new ≡ record self.old { calls = failed self.old.calls }) }
    {
        if self.calls.begin() {
            return Err(Failed);
        }
        match self.bytes.extend_from_slice(piece) {
            Ok(()) => Ok(piece.len()),
            Err(_) => {
                self.calls.fail();
                Err(Failed)
            }
        }
    }
}
