//! A source of bytes in memory.
ghost use Rattle.std.specs.Prelude.{◌≡◌, ◌↔◌, ◌++◌, Some, length, min, take, drop, IsErr, IfOk, OnOk, OnErr};
ghost use Rattle.outside_world.specs.Calls.{fresh_calls, FailsNext, counted, failed};
ghost use Rattle.outside_world.specs.Memory.{Feed};

use crate::calls::Calls;
use crate::fault::Failed;
use crate::source::Source;
use std::marker::Model;

/// A source that gives the bytes of a list, and whose calls fail where a list of numbers says so.
#[derive(Drop)]
pub struct MemorySource {
    bytes: Vec<u8>,
    at: usize,
    calls: Calls,
}

impl Model for MemorySource {
    ghost use Rattle.std.specs.Prelude.{◌≤◌, length, drop};
    ghost use Rattle.outside_world.specs.Memory.{Feed};

    ghost Value = { Feed };

    ghost view = { λ s. record { left = drop s.at s.bytes.items; calls = s.calls } };

    ghost invariant = { λ s. s.at ≤ length s.bytes.items };
}

impl MemorySource {
    /// A source of these bytes, whose calls with the numbers in `fails` fail.
    ///
    /// Calls are numbered from 1; order and repeats do not matter. A call that fails moves nothing.
    pub fn new(bytes: Vec<u8>, fails: Vec<u64>) -> Self
        ensures left { result.left ≡ bytes.items }
        ensures calls { result.calls ≡ fresh_calls fails.items }
    {
        MemorySource {
            bytes,
            at: 0,
            calls: Calls::new(fails),
        }
    }
}

impl Source for MemorySource {
    ghost left = { λ s. Some s.left };

    ghost faults = { λ s. s.calls.faults };

    fn read(&mut self, room: &mut [u8]) -> Result<usize, Failed>
        ensures listed { IsErr result ↔ FailsNext self.old.calls }
        ensures ok { IfOk result (λ n. n ≡ min (length self.old.left) (length room.old)) }
        ensures moved { IfOk result (λ n. room.new ≡ take n self.old.left ++ drop n room.old) }
        ensures left { IfOk result (λ n.
            self.new ≡ record { left = drop n self.old.left; calls = counted self.old.calls }) }
        ensures kept { OnErr result (self.new ≡ record self.old { calls = failed self.old.calls }) }
        ensures room { OnErr result (room.new ≡ room.old) }
    {
        if self.calls.begin() {
            return Err(Failed);
        }
        let count = fill(room, &self.bytes[self.at..]);
        self.at += count;
        Ok(count)
    }
}

/// Moves the first of the bytes into the room, as many as fit: how many.
fn fill(room: &mut [u8], bytes: &[u8]) -> usize
    ensures count { result ≡ min (length bytes.now) (length room.old) }
    ensures moved { room.new ≡ take result bytes.now ++ drop result room.old }
{
    let count = bytes.len().min(room.len());
    room[..count].copy_from_slice(&bytes[..count]);
    count
}
