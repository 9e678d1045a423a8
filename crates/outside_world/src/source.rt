//! Sources of bytes: a file that is read, a connection's input, a list in memory.
ghost use Rattle.std.specs.Prelude.{◌≡◌, ℕ, ◌<◌, ◌≤◌, List, Option, IsSome, length, take, drop, IfOk, OnErr};
ghost use Rattle.outside_world.specs.Faults.{Rose};
ghost use Rattle.outside_world.specs.Source.{with_front, IsSpent};

use crate::fault::Failed;

/// Something that gives bytes one after another.
pub trait Source {
    // The bytes that are left, where the source tells them.
    ghost left: { Self → Option (List ℕ) };

    // How often it failed: a number of 64 bits that never falls.
    ghost faults: { Self → ℕ };

    /// Moves the first of the bytes left into the room, and answers how many it moved.
    ///
    /// It moves none exactly where none is left or the room is empty. A source that tells no bytes
    /// goes on telling none, and says of the room only that its length stays.
    fn read(&mut self, room: &mut [u8]) -> Result<usize, Failed>
        ensures fits { IfOk result (λ n. n ≤ length room.new) }
        // What was left is what came into the room, and then what is left now.
        ensures moved { IfOk result
            (λ n. left self.old ≡ with_front (take n room.new) (left self.new)) }
        ensures beyond { IfOk result
            (λ n. IsSome (left self.old) → drop n room.new ≡ drop n room.old) }
        ensures ends { IfOk result (λ n. n ≡ 0 → 0 < length room.new → IsSpent (left self.new)) }
        ensures kept { OnErr result (left self.new ≡ left self.old) }
        ensures later { faults self.old ≤ faults self.new }
        ensures failed { OnErr result (Rose (faults self.old) (faults self.new)) };
}
