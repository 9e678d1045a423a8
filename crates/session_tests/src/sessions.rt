//! Sessions whose input comes in pieces, and whose reads and writes fail.
use disk_model::MemoryDisk;
use outside_world::{MemoryClock, MemorySink, PiecesSource};
use pagetree_session::{Options, Status, Words, run_command};
use std::alloc::Global;
use std::process::Abort;
use std::test::Fail;

/// A request for a page below the root, of 140 bytes.
const HOME: &[u8] =
    b"POST /api/pages HTTP/1.1\r\nAuthorization: Bearer abc\r\nContent-Length: 65\r\n\r\n\
    {\"content\":{\"blocks\":[],\"title\":\"Home\"},\"parent\":1,\"slug\":\"home\"}";

/// Its answer in a new site.
const CREATED: &[u8] =
    b"HTTP/1.1 200 OK\r\nContent-Length: 51\r\nContent-Type: application/json\r\n\r\n\
    {\"entry\":1,\"id\":2,\"path\":\"00010001\",\"url\":\"/home/\"}";

/// The same request twice.
fn twice(alloc: Global) -> Result<Vec<u8>, Fail> {
    let mut input = HOME.to_vec(alloc)?;
    input.extend_from_slice(HOME)?;
    Ok(input)
}

/// Expects how a session ends and how much it writes after the first answer; the input comes in
/// pieces of at most this length, and the listed calls fail.
fn expect_end(
    rt: &impl Abort,
    alloc: Global,
    piece: usize,
    failing: (&[u64], &[u64]),
    wanted: (Status, usize),
) -> Result<(), Fail> {
    let (reads, writes) = failing;
    let (status, more) = wanted;
    let pieces = [piece.max(1)].to_vec(alloc)?;
    let mut source = PiecesSource::new(twice(alloc)?, pieces, reads.to_vec(alloc)?);
    let mut sink = MemorySink::new(alloc, writes.to_vec(alloc)?);
    let mut words = Words::new(alloc);
    words.push("session")?;
    let mut clock = MemoryClock { next: 0, step: 0 };
    let disk = MemoryDisk::new(alloc, 1_000, 100, &[])?;
    let end = run_command(alloc, &words, &mut source, &mut sink, disk, &mut clock);
    assert_eq!(rt; end.status, status, "in pieces of {piece}");
    assert!(rt; sink.bytes().starts_with(CREATED), "in pieces of {piece}");
    assert_eq!(rt; sink.bytes().len(), CREATED.len().saturating_add(more));
    Ok(())
}

#[test]
fn pieces_make_no_difference_and_faults_end_a_session(rt: HostRuntime) -> Result<(), Fail> {
    // The second answer, 409, has 118 bytes.
    for piece in [1, 7, 140, 100_000] {
        expect_end(&rt, rt.alloc(), piece, (&[], &[]), (Status::Done, 118))?;
    }
    expect_end(&rt, rt.alloc(), 150, (&[2], &[]), (Status::ReadFault, 0))?;
    expect_end(&rt, rt.alloc(), 300, (&[], &[2]), (Status::WriteFault, 0))
}

#[test]
fn words_are_read_by_their_rules(rt: HostRuntime) -> Result<(), Fail> {
    let none = Options {
        at: None,
        step: None,
    };
    let both = Options {
        at: Some(7),
        step: Some(5),
    };
    for (line, options) in [
        ("session", Some(none)),
        ("session --step=5 --at 000000000007", Some(both)),
        ("", None),
        ("serve", None),
        ("sessions", None),
        ("session now", None),
        ("session --at", None),
        ("session --at x", None),
        ("session --at 1 --at=2", None),
        ("session --step=1234567890123", None),
        ("session -- --at 1", None),
        ("session --help", None),
    ] {
        let mut words = Words::new(rt.alloc());
        for word in line.split(' ') {
            words.push(word)?;
        }
        assert_eq!(rt; words.session_options(), options, "at {line}");
    }
    Ok(())
}
