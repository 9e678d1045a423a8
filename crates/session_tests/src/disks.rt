//! Sessions on a disk: what the next one finds, faults at each call, and a file that is bad.
use disk_model::{Disk, MemoryDisk};
use outside_world::{MemoryClock, MemorySink, MemorySource};
use pagetree_session::{CommandEnd, Status, Words, run_command};
use std::alloc::Global;
use std::test::Fail;

/// A request for a page below the root.
const HOME: &[u8] =
    b"POST /api/pages HTTP/1.1\r\nAuthorization: Bearer abc\r\nContent-Length: 65\r\n\r\n\
    {\"content\":{\"blocks\":[],\"title\":\"Home\"},\"parent\":1,\"slug\":\"home\"}";

/// A request for another one.
const OTHER: &[u8] =
    b"POST /api/pages HTTP/1.1\r\nAuthorization: Bearer abc\r\nContent-Length: 66\r\n\r\n\
    {\"content\":{\"blocks\":[],\"title\":\"Home\"},\"parent\":1,\"slug\":\"other\"}";

/// The answer to the first in a new site.
const CREATED: &[u8] =
    b"HTTP/1.1 200 OK\r\nContent-Length: 51\r\nContent-Type: application/json\r\n\r\n\
    {\"entry\":1,\"id\":2,\"path\":\"00010001\",\"url\":\"/home/\"}";

/// The answer to the second in a new site.
const OTHER_CREATED: &[u8] =
    b"HTTP/1.1 200 OK\r\nContent-Length: 52\r\nContent-Type: application/json\r\n\r\n\
    {\"entry\":1,\"id\":2,\"path\":\"00010001\",\"url\":\"/other/\"}";

/// The answer if page 2 has the slug.
const TAKEN: &[u8] =
    b"HTTP/1.1 409 Conflict\r\nContent-Length: 41\r\nContent-Type: application/json\r\n\r\n\
    {\"name\":\"SlugTaken\",\"refused\":8,\"with\":2}";

/// The answers at the first fault of a disk, and at the second.
const FAILED: &[u8] = b"HTTP/1.1 500 Internal Server Error\r\nContent-Length: 37\r\n\
    Content-Type: application/json\r\n\r\n{\"after\":1,\"before\":0,\"error\":\"Disk\"}";

const FAILED_AGAIN: &[u8] = b"HTTP/1.1 500 Internal Server Error\r\nContent-Length: 37\r\n\
    Content-Type: application/json\r\n\r\n{\"after\":2,\"before\":1,\"error\":\"Disk\"}";

/// A disk with room for these tests, whose listed calls fail.
fn failing_at(alloc: Global, calls: &[u64]) -> Result<MemoryDisk, Fail> {
    Ok(MemoryDisk::new(alloc, 1_000, 200, calls)?)
}

/// How a session on a disk ended, and what it wrote.
#[derive(Drop)]
struct Told {
    end: CommandEnd<MemoryDisk>,
    sink: MemorySink,
}

/// Runs a session that is asked these requests.
fn session_on(alloc: Global, disk: MemoryDisk, asked: &[&[u8]]) -> Result<Told, Fail> {
    let mut input = Vec::new(alloc);
    for request in asked {
        input.extend_from_slice(request)?;
    }
    let mut source = MemorySource::new(input, Vec::new(alloc));
    let mut sink = MemorySink::new(alloc, Vec::new(alloc));
    let mut words = Words::new(alloc);
    words.push("session")?;
    let mut clock = MemoryClock {
        next: 1_700_000_000,
        step: 0,
    };
    let end = run_command(alloc, &words, &mut source, &mut sink, disk, &mut clock);
    Ok(Told { end, sink })
}

/// The bytes of answers one after another.
fn texts(alloc: Global, answers: &[&[u8]]) -> Result<Vec<u8>, Fail> {
    let mut text = Vec::new(alloc);
    for answer in answers {
        text.extend_from_slice(answer)?;
    }
    Ok(text)
}

#[test]
fn a_second_session_finds_the_page(rt: HostRuntime) -> Result<(), Fail> {
    let alloc = rt.alloc();
    let told = session_on(alloc, failing_at(alloc, &[])?, &[HOME])?;
    assert_eq!(rt; told.end.status, Status::Done);
    assert_eq!(rt; told.sink.bytes(), CREATED);
    let mut disk = told.end.disk;
    assert_eq!(rt; disk.len(3), Ok(59));
    let again = session_on(alloc, disk, &[HOME])?;
    assert_eq!(rt; again.end.status, Status::Done);
    assert_eq!(rt; again.sink.bytes(), TAKEN);
    Ok(())
}

#[test]
fn a_fault_while_a_site_is_made_ends_the_session(rt: HostRuntime) -> Result<(), Fail> {
    // The length of file 3, its header, the cut after that and a sync.
    for failing in 1..5 {
        let told = session_on(rt.alloc(), failing_at(rt.alloc(), &[failing])?, &[HOME])?;
        assert_eq!(rt; told.end.status, Status::DiskFault, "at {failing}");
        assert!(rt; told.sink.bytes().is_empty(), "at {failing}");
    }
    Ok(())
}

#[test]
fn a_fault_while_a_site_is_opened_again_ends_the_session(rt: HostRuntime) -> Result<(), Fail> {
    // The first session makes 8 calls. The length of file 3, a sync, its header and its record.
    for failing in 9..13 {
        let first = session_on(rt.alloc(), failing_at(rt.alloc(), &[failing])?, &[HOME])?;
        assert_eq!(rt; first.sink.bytes(), CREATED, "at {failing}");
        let told = session_on(rt.alloc(), first.end.disk, &[HOME])?;
        assert_eq!(rt; told.end.status, Status::DiskFault, "at {failing}");
        assert!(rt; told.sink.bytes().is_empty(), "at {failing}");
        let again = session_on(rt.alloc(), told.end.disk, &[HOME])?;
        assert_eq!(rt; again.sink.bytes(), TAKEN, "at {failing}");
    }
    Ok(())
}

#[test]
fn a_fault_of_a_command_is_told_and_the_session_goes_on(rt: HostRuntime) -> Result<(), Fail> {
    // The calls 5 to 8 are the first command's: a write and a sync of its record, and of its gate.
    let wanted = texts(rt.alloc(), &[FAILED, OTHER_CREATED])?;
    for failing in 5..9 {
        let disk = failing_at(rt.alloc(), &[failing])?;
        let told = session_on(rt.alloc(), disk, &[HOME, OTHER])?;
        assert_eq!(rt; told.end.status, Status::Done, "at {failing}");
        assert_eq!(rt; told.sink.bytes(), wanted.as_slice(), "at {failing}");
        let again = session_on(rt.alloc(), told.end.disk, &[OTHER])?;
        assert_eq!(rt; again.sink.bytes(), TAKEN, "at {failing}");
    }
    Ok(())
}

#[test]
fn a_repair_that_fails_is_told_too(rt: HostRuntime) -> Result<(), Fail> {
    // The first command's gate is in doubt, and the second's repair fails: its write or its sync.
    let wanted = texts(rt.alloc(), &[FAILED, FAILED_AGAIN, OTHER_CREATED])?;
    for failing in 9..11 {
        let disk = failing_at(rt.alloc(), &[8, failing])?;
        let told = session_on(rt.alloc(), disk, &[HOME, HOME, OTHER])?;
        assert_eq!(rt; told.end.status, Status::Done, "at {failing}");
        assert_eq!(rt; told.sink.bytes(), wanted.as_slice(), "at {failing}");
        let again = session_on(rt.alloc(), told.end.disk, &[OTHER])?;
        assert_eq!(rt; again.sink.bytes(), TAKEN, "at {failing}");
    }
    Ok(())
}

#[test]
fn a_bad_file_ends_the_session_and_stays(rt: HostRuntime) -> Result<(), Fail> {
    let mut disk = failing_at(rt.alloc(), &[])?;
    disk.write_at(3, 0, &[0])?;
    let told = session_on(rt.alloc(), disk, &[HOME])?;
    assert_eq!(rt; told.end.status, Status::BadStore { file: 3, offset: 0 });
    assert!(rt; told.sink.bytes().is_empty());
    let mut disk = told.end.disk;
    assert_eq!(rt; disk.len(3), Ok(1));
    Ok(())
}
