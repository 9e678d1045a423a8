//! The real outside, over readers, writers and clocks of these tests: that a source gives what its
//! reader reads, that a sink drops nothing, and that a clock goes with the system's.
use outside_world::{
    Clock, Failed, Sink, Source, StreamSink, StreamSource, SystemClock, write_all,
};
use std::test::Fail;
use std::time::Duration;
use std::{io, rt};

/// A reader that fails, and a writer that takes nothing.
#[derive(Drop)]
struct Broken;

impl io::Read for Broken {
    fn read(&mut self, _room: &mut [u8]) -> io::Result<usize> {
        Err(io::Error::from(io::ErrorKind::Interrupted))
    }
}

impl io::Write for Broken {
    fn write(&mut self, _piece: &[u8]) -> io::Result<usize> {
        Ok(0)
    }

    fn flush(&mut self) -> io::Result<()> {
        Ok(())
    }
}

/// A clock that reads these seconds, or fails at none.
#[derive(Clone, Copy)]
struct At(Option<u64>);

impl rt::Clock for At {
    fn monotonic(&self) -> io::Result<Duration> {
        self.since_1970()
    }

    fn since_1970(&self) -> io::Result<Duration> {
        match self.0 {
            Some(seconds) => Ok(Duration::from_secs(seconds)),
            None => Err(io::Error::from(io::ErrorKind::Other)),
        }
    }
}

#[test]
fn a_source_gives_what_its_reader_reads(rt: HostRuntime) {
    let mut room = [0u8; 8];
    let mut source = StreamSource::new(b"a stream".as_slice());
    assert_eq!(rt; source.read(&mut room), Ok(8));
    assert_eq!(rt; room.as_slice(), b"a stream".as_slice());
    assert_eq!(rt; source.read(&mut room), Ok(0));
    let mut broken = StreamSource::new(Broken);
    assert_eq!(rt; broken.read(&mut room), Err(Failed));
}

#[test]
fn a_sink_drops_nothing(rt: HostRuntime) -> Result<(), Fail> {
    let mut written = Vec::new(rt.alloc());
    let mut sink = StreamSink::new(&mut written);
    assert_eq!(rt; write_all(&mut sink, b"to "), Ok(()));
    assert_eq!(rt; write_all(&mut sink, b"the sink"), Ok(()));
    assert_eq!(rt; written.as_slice(), b"to the sink".as_slice());
    let mut broken = StreamSink::new(Broken);
    assert_eq!(rt; broken.write(b"x"), Err(Failed));
    Ok(())
}

#[test]
fn a_clock_goes_with_the_systems(rt: HostRuntime) {
    let mut clock = SystemClock { runtime: rt };
    assert!(rt; clock.now() > 1_700_000_000);
    for (read, given) in [
        (Some(17), 17),
        (Some(253_370_764_800), 253_370_764_799),
        (None, 0),
    ] {
        let mut clock = SystemClock { runtime: At(read) };
        assert_eq!(rt; clock.now(), given);
    }
}
