//! Sinks of bytes: a file that is written, a connection's output, a list in memory.
ghost use Rattle.std.specs.Prelude.{◌≡◌, ℕ, ◌<◌, ◌≤◌, List, Option, length, take, IfOk, OnOk, OnErr};
ghost use Rattle.outside_world.specs.Faults.{Rose};
ghost use Rattle.outside_world.specs.Sink.{with_back, AppendsPart};

use crate::fault::Failed;

/// Something that takes bytes one after another.
pub trait Sink {
    // The bytes that it took, where the sink tells them.
    ghost taken: { Self → Option (List ℕ) };

    // How often it failed: a number of 64 bits that never falls.
    ghost faults: { Self → ℕ };

    /// Takes the first bytes of the piece, and answers how many: at least 1 of a piece with bytes.
    ///
    /// Where it fails it has taken a first part of the piece, which may be empty.
    fn write(&mut self, piece: &[u8]) -> Result<usize, Failed>
        ensures fits { IfOk result (λ n. n ≤ length piece.now) }
        ensures takes_some { IfOk result (λ n. 0 < length piece.now → 0 < n) }
        ensures taken { IfOk result
            (λ n. taken self.new ≡ with_back (taken self.old) (take n piece.now)) }
        ensures part { OnErr result (AppendsPart (taken self.old) (taken self.new) piece.now) }
        ensures later { faults self.old ≤ faults self.new }
        ensures failed { OnErr result (Rose (faults self.old) (faults self.new)) };
}

/// Writes the whole piece, by as many writes as it takes.
///
/// Whatever the answer, a first part of the piece was appended and nothing else, and at `Ok` the
/// whole of it.
pub fn write_all<K: Sink>(sink: &mut K, piece: &[u8]) -> Result<(), Failed>
    ensures part { AppendsPart (K.taken sink.old) (K.taken sink.new) piece.now }
    ensures whole { OnOk result (K.taken sink.new ≡ with_back (K.taken sink.old) piece.now) }
    ensures later { K.faults sink.old ≤ K.faults sink.new }
    ensures failed { OnErr result (Rose (K.faults sink.old) (K.faults sink.new)) }
{
    let mut written = 0;
    while written < piece.len() {
        match sink.write(&piece[written..]) {
            Ok(count) => written += count,
            Err(fault) => return Err(fault),
        }
    }
    Ok(())
}
