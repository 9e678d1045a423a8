//! The real outside, over what std has: the trusted edge.
ghost use Rattle.std.specs.Prelude.{◌≡◌, None};

use crate::calls::raised;
use crate::clock::{Clock, LAST_MOMENT};
use crate::fault::Failed;
use crate::sink::Sink;
use crate::source::Source;
use std::io::{Read, Write};
use std::rt;
use std::time::{SystemTime, UNIX_EPOCH};

/// A source over a reader of std. It tells no bytes, and counts each error of a read as a fault.
#[derive(Drop)]
pub struct StreamSource<R> {
    reader: R,
    faults: u64,
}

impl<R: Read> StreamSource<R> {
    /// A source of what the reader reads.
    pub fn new(reader: R) -> Self
        ensures { ⟦<StreamSource<R> as Source>⟧.faults result ≡ 0 }
    {
        StreamSource { reader, faults: 0 }
    }
}

impl<R: Read> Source for StreamSource<R> {
    ghost left = { λ _. None };

    ghost faults = { λ s. s.faults };

    fn read(&mut self, room: &mut [u8]) -> Result<usize, Failed> {
        match self.reader.read(room) {
            Ok(count) => Ok(count),
            Err(_) => {
                self.faults = raised(self.faults);
                Err(Failed)
            }
        }
    }
}

/// A sink over a writer of std. It tells no bytes, and counts each error of a write as a fault, and
/// each write that takes nothing of a piece with bytes.
#[derive(Drop)]
pub struct StreamSink<W> {
    writer: W,
    faults: u64,
}

impl<W: Write> StreamSink<W> {
    /// A sink that the writer writes. What a writer buffers is not flushed.
    pub fn new(writer: W) -> Self
        ensures { ⟦<StreamSink<W> as Sink>⟧.faults result ≡ 0 }
    {
        StreamSink { writer, faults: 0 }
    }
}

impl<W: Write> Sink for StreamSink<W> {
    ghost taken = { λ _. None };

    ghost faults = { λ s. s.faults };

    fn write(&mut self, piece: &[u8]) -> Result<usize, Failed> {
        if let Ok(count) = self.writer.write(piece)
            && (count > 0 || piece.is_empty())
        {
            return Ok(count);
        }
        self.faults = raised(self.faults);
        Err(Failed)
    }
}

/// The clock of the system. It tells no moments.
#[derive(Clone, Copy)]
pub struct SystemClock<R> {
    /// The runtime whose clock is read.
    pub runtime: R,
}

impl<R: rt::Clock + Copy> Clock for SystemClock<R> {
    ghost coming = { λ _ _. None };

    // A clock that cannot be read gives 0, as one that is set before 1970.
    fn now(&mut self) -> u64 {
        match SystemTime::now(&self.runtime) {
            Ok(time) => match time.duration_since(UNIX_EPOCH) {
                Ok(since) => since.as_secs().min(LAST_MOMENT),
                Err(_) => 0,
            },
            Err(_) => 0,
        }
    }

    fn twin(&self) -> Self
        ensures { result ≡ self.now }
    {
        *self
    }
}
