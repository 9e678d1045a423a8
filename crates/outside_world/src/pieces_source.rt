//! A source of bytes in memory that gives them in pieces of stated lengths.
ghost use Rattle.std.specs.Prelude.{◌≡◌, ◌+◌, ◌<◌, ◌↔◌, nat_lt, if◌then◌else◌, ◌++◌, Some, All, length, min, take, drop, vec_len, IsErr, IfOk, OnErr};
ghost use Rattle.outside_world.specs.Calls.{fresh_calls, FailsNext, counted, failed};
ghost use Rattle.outside_world.specs.Memory.{PiecedFeed, next_piece, next_pieces};

use crate::fault::Failed;
use crate::memory_source::MemorySource;
use crate::source::Source;
use std::marker::Model;

/// A source that gives the bytes of a list, in pieces of at most stated lengths.
#[derive(Drop)]
pub struct PiecesSource {
    pieces: Vec<usize>,
    at: usize,
    source: MemorySource,
}

impl Model for PiecesSource {
    ghost use Rattle.std.specs.Prelude.{◌<◌, All, length, drop};
    ghost use Rattle.outside_world.specs.Memory.{PiecedFeed};

    ghost Value = { PiecedFeed };

    ghost view = { λ s. record { pieces = drop s.at s.pieces.items; feed = s.source } };

    ghost invariant = { λ s.
        (s.at < length s.pieces.items) × All (λ piece. 0 < piece) s.pieces.items };
}

impl PiecesSource {
    /// A source of these bytes, whose k-th call gives at most the k-th of the lengths in `pieces`.
    ///
    /// The last length holds again once all are used. The calls with the numbers in `fails` fail:
    /// calls are numbered from 1, and order and repeats do not matter. A call that fails moves
    /// nothing, and its length counts as used.
    pub fn new(bytes: Vec<u8>, pieces: Vec<usize>, fails: Vec<u64>) -> Self
        requires some_stated { 0 < vec_len pieces }
        requires each_some { All (λ piece. 0 < piece) pieces.items }
        ensures pieces { result.pieces ≡ pieces.items }
        ensures left { result.feed.left ≡ bytes.items }
        ensures calls { result.feed.calls ≡ fresh_calls fails.items }
    {
        PiecesSource {
            pieces,
            at: 0,
            source: MemorySource::new(bytes, fails),
        }
    }
}

impl Source for PiecesSource {
    ghost left = { λ s. Some s.feed.left };

    ghost faults = { λ s. s.feed.calls.faults };

    fn read(&mut self, room: &mut [u8]) -> Result<usize, Failed>
        ensures listed { IsErr result ↔ FailsNext self.old.feed.calls }
        ensures some { 0 < next_piece self.old }
        ensures ok { IfOk result (λ n.
            n ≡ min (length self.old.feed.left) (min (next_piece self.old) (length room.old))) }
        ensures moved { IfOk result
            (λ n. room.new ≡ take n self.old.feed.left ++ drop n room.old) }
        ensures pieces { self.new.pieces ≡ next_pieces self.old.pieces }
        ensures left { IfOk result (λ n. self.new.feed ≡ record {
          left = drop n self.old.feed.left;
          calls = counted self.old.feed.calls;
        }) }
        ensures kept { OnErr result
            (self.new.feed ≡ record self.old.feed { calls = failed self.old.feed.calls }) }
        ensures room { OnErr result (room.new ≡ room.old) }
    {
        let count = self.pieces[self.at].min(room.len());
        self.at = next_place(self.at, self.pieces.len());
        self.source.read(&mut room[..count])
    }
}

/// The place of the length after this one, or the same at the last one.
fn next_place(at: usize, length: usize) -> usize
    requires { at < length }
    ensures { result ≡ (if nat_lt (at + 1) length then at + 1 else at) }
{
    if at + 1 < length { at + 1 } else { at }
}
