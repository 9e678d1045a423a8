//! The four files of a disk in memory.
ghost use Rattle.std.specs.Prelude.{◌≡◌, ◌+◌, ◌-◌, ◌<◌, ◌≤◌, ◌++◌, [], length, min, take, drop, set, replicate, slice_index_or, vec_len, vec_capacity, IfOk};
ghost use Rattle.disk_model.specs.Past.{written};
ghost use Rattle.disk_model.specs.Files.{FileBytes, bytes_of};

use crate::no_memory::NoMemory;
use std::alloc::Global;
use std::marker::Model;

/// How many files a disk has.
pub(crate) const FILES: usize = 4;

/// Four files, with room for so many bytes each.
#[derive(Drop)]
pub(crate) struct Files {
    files: Vec<Vec<u8>>,
    room: usize,
}

impl Model for Files {
    ghost use Rattle.std.specs.Prelude.{◌≡◌, ◌≤◌, All, map, vec_len, vec_capacity};
    ghost use Rattle.disk_model.specs.Files.{FileBytes};

    ghost Value = { FileBytes };

    ghost view = { λ f. record { files = map (λ v. v.items) f.files.items; room = f.room } };

    ghost invariant = { λ f.
        (vec_len f.files ≡ 4) × All (λ v. f.room ≤ vec_capacity v) f.files.items };
}

impl Files {
    /// Four empty files, with memory for `room` bytes each.
    pub(crate) fn new(alloc: Global, room: usize) -> Result<Self, NoMemory>
        ensures { IfOk result (λ files. files ≡ record { files = replicate 4 []; room = room }) }
    {
        let mut files = Vec::new(alloc);
        for _ in 0..FILES {
            files.push(Vec::with_capacity(alloc, room)?)?;
        }
        Ok(Files { files, room })
    }

    /// The bytes of a file.
    pub(crate) fn bytes(&self, file: usize) -> &[u8]
        requires { file < 4 }
        ensures { result.now ≡ bytes_of self.now file }
    {
        self.files[file].as_slice()
    }

    /// Writes bytes over those of a file from an offset on, and past its end.
    pub(crate) fn write(&mut self, file: usize, at: usize, bytes: &[u8])
        requires file { file < 4 }
        requires within { at ≤ length (bytes_of self.old file) }
        requires room { length (bytes_of self.old file) + length bytes.now ≤ self.old.room }
        ensures { self.new ≡ record self.old {
          files = set self.old.files file (written (bytes_of self.old file) at bytes.now);
        } }
    {
        let old = &mut self.files[file];
        overwrite(old, at, bytes);
    }

    /// Cuts a file to a length.
    pub(crate) fn cut(&mut self, file: usize, length: usize)
        requires { file < 4 }
        ensures { self.new ≡ record self.old {
          files = set self.old.files file (take length (bytes_of self.old file));
        } }
    {
        let old = &mut self.files[file];
        old.truncate(length);
    }
}

/// Writes bytes over those of a list from an offset on, and past its end.
fn overwrite(old: &mut Vec<u8>, at: usize, bytes: &[u8])
    requires within { at ≤ vec_len old.old }
    requires room { vec_len old.old + length bytes.now ≤ vec_capacity old.old }
    ensures bytes { old.new.items ≡ written old.old.items at bytes.now }
    ensures room { vec_capacity old.old ≤ vec_capacity old.new }
{
    let over = bytes.len().min(old.len() - at);
    old[at..at + over].copy_from_slice(&bytes[..over]);
    match old.extend_from_slice(&bytes[over..]) {
        Ok(()) => {}
        Err(_) => unreachable!(),
    }
}
