//! The real disk, over four files of one folder: the trusted edge.
ghost use Rattle.std.specs.Prelude.{◌≡◌, ◌≢◌, ℕ, ◌+◌, ◌<◌, ◌≤◌, slice_index, [], List};
ghost use Rattle.disk_model.specs.Past.{Past};
ghost use Rattle.outside_world.specs.Faults.{raised};

use crate::calls::raised;
use disk_model::{Disk, DiskFailed};
use std::fs::{File, OpenOptions};
use std::io;
use std::os::unix::fs::FileExt;

/// The files `pages.0` to `pages.3` of one folder. Nothing is buffered.
///
/// A file that cannot be opened or made, or that another open disk holds, fails at each call on it:
/// each file is held by an advisory lock (`flock`) until the disk is dropped or its process ends. It is
/// not told as honest: what a real file keeps is taken on trust. It keeps the length of each file, and
/// no process that does not ask for that lock may change one.
#[derive(Drop)]
pub struct FileDisk {
    files: [Option<File>; 4],
    sizes: [u64; 4],
    faults: u64,
}

impl FileDisk {
    /// Opens the files of a folder, and makes those that are not there.
    pub fn open(rt: &HostRuntime, folder: &str) -> Self
        ensures { ⟦<FileDisk as Disk>⟧.fault_count result ≡ 0 }
    {
        let (file_0, size_0) = open_or_none(rt, folder, 0);
        let (file_1, size_1) = open_or_none(rt, folder, 1);
        let (file_2, size_2) = open_or_none(rt, folder, 2);
        let (file_3, size_3) = open_or_none(rt, folder, 3);
        FileDisk {
            files: [file_0, file_1, file_2, file_3],
            sizes: [size_0, size_1, size_2, size_3],
            faults: 0,
        }
    }
}

impl Disk for FileDisk {
    ghost is_honest = { λ _. ⊥ };

    ghost past = { λ _. record { start = λ _. []; calls = [] } };

    ghost size = { λ disk file. slice_index disk.sizes file };

    ghost fault_count = { λ disk. disk.faults };

    ghost sizes_are = { λ _ honest _. absurd honest };

    fn read_at(&mut self, file: u8, at: u64, room: &mut [u8]) -> Result<usize, DiskFailed> {
        let left = self.sizes[file as usize] - at;
        let count = (room.len() as u64).min(left) as usize;
        if read_whole(&self.files[file as usize], at, &mut room[..count]) {
            return Ok(count);
        }
        self.faults = raised(self.faults);
        Err(DiskFailed)
    }

    fn write_at(&mut self, file: u8, at: u64, bytes: &[u8]) -> Result<(), DiskFailed> {
        let size = self.sizes[file as usize];
        if let Some(end) = at.checked_add(bytes.len() as u64)
            && write_whole(&self.files[file as usize], at, bytes)
        {
            self.sizes[file as usize] = size.max(end);
            return Ok(());
        }
        self.sizes[file as usize] = size.max(measured(&self.files[file as usize]));
        self.faults = raised(self.faults);
        Err(DiskFailed)
    }

    fn cut(&mut self, file: u8, length: u64) -> Result<(), DiskFailed> {
        if set_length(&self.files[file as usize], length) {
            self.sizes[file as usize] = length;
            return Ok(());
        }
        let size = self.sizes[file as usize];
        self.sizes[file as usize] = measured(&self.files[file as usize]).max(length).min(size);
        self.faults = raised(self.faults);
        Err(DiskFailed)
    }

    fn sync(&mut self, file: u8) -> Result<(), DiskFailed> {
        if let Some(open) = &self.files[file as usize]
            && open.sync_data().is_ok()
        {
            return Ok(());
        }
        self.faults = raised(self.faults);
        Err(DiskFailed)
    }

    fn len(&mut self, file: u8) -> Result<u64, DiskFailed> {
        if self.files[file as usize].is_some() {
            return Ok(self.sizes[file as usize]);
        }
        self.faults = raised(self.faults);
        Err(DiskFailed)
    }

    fn faults(&self) -> u64 {
        self.faults
    }
}

/// Fills the room with the bytes of a file at an offset: whether it could.
fn read_whole(file: &Option<File>, at: u64, room: &mut [u8]) -> bool {
    match file {
        Some(open) => open.read_exact_at(room, at).is_ok(),
        None => false,
    }
}

/// Writes all the bytes to a file at an offset: whether it could.
fn write_whole(file: &Option<File>, at: u64, bytes: &[u8]) -> bool {
    match file {
        Some(open) => open.write_all_at(bytes, at).is_ok(),
        None => false,
    }
}

/// Sets the length of a file: whether it could.
fn set_length(file: &Option<File>, length: u64) -> bool {
    match file {
        Some(open) => open.set_len(length).is_ok(),
        None => false,
    }
}

/// The length of a file as the system gives it, or 0 if it gives none.
fn measured(file: &Option<File>) -> u64 {
    match file {
        Some(open) => match open.metadata() {
            Ok(found) => found.len(),
            Err(_) => 0,
        },
        None => 0,
    }
}

/// A file of the folder and its length, or none and 0 if it cannot be opened, made or held.
fn open_or_none(rt: &HostRuntime, folder: &str, number: u8) -> (Option<File>, u64) {
    match open_pages(rt, folder, number) {
        Ok((file, size)) => (Some(file), size),
        Err(_) => (None, 0),
    }
}

/// Opens a file of the folder, or makes it and brings it and its name to the disk, and holds it by a
/// lock before its length is measured.
fn open_pages(rt: &HostRuntime, folder: &str, number: u8) -> io::Result<(File, u64)> {
    let path = format!(in rt.alloc(); "{folder}/pages.{number}")?;
    let file = match OpenOptions::new()
        .read(true)
        .write(true)
        .open(rt, path.as_str())
    {
        Err(error) if error.kind() == io::ErrorKind::NotFound => make(rt, folder, path.as_str())?,
        opened => opened?,
    };
    if file.try_lock().is_err() {
        return Err(io::Error::from(io::ErrorKind::WouldBlock));
    }
    let size = file.metadata()?.len();
    Ok((file, size))
}

/// Makes an empty file, and brings it and its name to the disk.
fn make(rt: &HostRuntime, folder: &str, path: &str) -> io::Result<File> {
    let file = File::create_new(rt, path)?;
    file.sync_all()?;
    File::open(rt, folder)?.sync_all()?;
    Ok(file)
}
