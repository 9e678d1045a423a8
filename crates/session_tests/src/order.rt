//! That no answer waits for more input: a reader that fails if it is read before the last answer was
//! written.
use disk_model::MemoryDisk;
use outside_world::{MemoryClock, StreamSink, StreamSource};
use pagetree_session::{Status, Words, run_command};
use std::cell::Cell;
use std::io;
use std::test::Fail;

/// A request for a page that is not there.
const ASKED: &[u8] = b"GET / HTTP/1.1\r\n\r\n";

/// The length of its answer.
const ANSWER_LENGTH: usize = 98;

/// How many requests are asked.
const TURNS: usize = 3;

/// Gives one request a read, and fails if the answers to the earlier ones were not written.
#[derive(Drop)]
struct Waiting<'w> {
    given: usize,
    written: &'w Cell<usize>,
}

impl io::Read for Waiting<'_> {
    fn read(&mut self, room: &mut [u8]) -> io::Result<usize> {
        if self.written.get() != self.given.saturating_mul(ANSWER_LENGTH) {
            return Err(io::Error::from(io::ErrorKind::WouldBlock));
        }
        if self.given == TURNS {
            return Ok(0);
        }
        self.given = self.given.saturating_add(1);
        let count = ASKED.len().min(room.len());
        room[..count].copy_from_slice(&ASKED[..count]);
        Ok(count)
    }
}

/// Counts the bytes that it is given.
#[derive(Drop)]
struct Counting<'w> {
    written: &'w Cell<usize>,
}

impl io::Write for Counting<'_> {
    fn write(&mut self, piece: &[u8]) -> io::Result<usize> {
        let written = self.written.get().saturating_add(piece.len());
        self.written.set(written);
        Ok(piece.len())
    }

    fn flush(&mut self) -> io::Result<()> {
        Ok(())
    }
}

#[test]
fn each_answer_is_written_before_the_next_read(rt: HostRuntime) -> Result<(), Fail> {
    let written = Cell::new(0);
    let mut source = StreamSource::new(Waiting {
        given: 0,
        written: &written,
    });
    let mut sink = StreamSink::new(Counting { written: &written });
    let mut clock = MemoryClock { next: 0, step: 0 };
    let mut words = Words::new(rt.alloc());
    words.push("session")?;
    let disk = MemoryDisk::new(rt.alloc(), 100, 10, &[])?;
    let end = run_command(rt.alloc(), &words, &mut source, &mut sink, disk, &mut clock);
    assert_eq!(rt; end.status, Status::Done);
    assert_eq!(rt; written.get(), TURNS * ANSWER_LENGTH);
    Ok(())
}
