//! The program: `pagetree FOLDER session [--at N] [--step K]` answers the requests of standard input
//! from the site in the folder, whose entries are in its file `pages.3`.
#![tactic(auto)]

use outside_world::{FileDisk, StreamSink, StreamSource, SystemClock};
use pagetree_session::{Status, Words, run_command};
use std::process::ExitCode;
use std::{env, io};

fn main(rt: HostRuntime) -> ExitCode {
    let status = run_in(&rt);
    if status != Status::Done {
        // If standard error takes no more, the exit code alone gives the status.
        let _ = eprintln!(&rt; "pagetree: {status}");
    }
    ExitCode::from(status.code())
}

/// Runs the command after the folder, on the disk of the folder's files. Where there is no folder, or
/// its files cannot be made, each call on that disk fails, so that the status is `DiskFault`.
fn run_in(rt: &HostRuntime) -> Status {
    let (folder, words) = match words_of(rt) {
        Ok(words) => words,
        Err(status) => return status,
    };
    let disk = FileDisk::open(rt, &folder);
    let mut source = StreamSource::new(rt.stdin());
    let mut sink = StreamSink::new(rt.stdout());
    let mut clock = SystemClock { runtime: *rt };
    run_command(rt.alloc(), &words, &mut source, &mut sink, disk, &mut clock).status
}

/// The folder of the command line, and the words after it. Wrong words are told before the folder is
/// opened, so that no file is made for them.
fn words_of(rt: &HostRuntime) -> Result<(String, Words), Status> {
    let args = match env::args(rt) {
        Ok(args) => args,
        Err(error) => return Err(status_of(&error)),
    };
    let mut args = args.skip(1);
    let Some(folder) = args.next() else {
        return Err(Status::Usage);
    };
    let mut words = Words::new(rt.alloc());
    for word in args {
        if words.push(&word).is_err() {
            return Err(Status::Memory);
        }
    }
    if words.session_options().is_none() {
        return Err(Status::Usage);
    }
    Ok((folder, words))
}

/// The status if the words of the command line cannot be read: memory ran out, or one of them is not
/// UTF-8.
fn status_of(error: &io::Error) -> Status {
    if error.kind() == io::ErrorKind::OutOfMemory {
        Status::Memory
    } else {
        Status::Usage
    }
}
