//! A disk in memory, which fails where a test wants it to.
ghost use Rattle.std.specs.Prelude.{◌≡◌, ◌≢◌, ◌↔◌, ◌⊎◌, ℕ, ◌+◌, ◌-◌, ◌^◌, ◌<◌, ◌≤◌, ◌++◌, [], length, min, take, drop, IsErr, IfOk, OnOk, OnErr, refl};
ghost use Rattle.disk_model.specs.Past.{seen, with_write, with_cut, with_sync};
ghost use Rattle.disk_model.specs.Faults.{CountsFault};
ghost use Rattle.disk_model.specs.CallCount.{FailsNext, fresh_count};
ghost use Rattle.disk_model.specs.Memory.{memory_past, memory_size, HasNoRoom};

use crate::calls::Calls;
use crate::disk::Disk;
use crate::fault::DiskFailed;
use crate::files::Files;
use crate::no_memory::NoMemory;
use crate::story::Story;
use std::alloc::Global;
use std::marker::Model;

/// A disk of four files in memory. It is honest, and a call that fails does nothing.
///
/// All its memory is reserved when it is made. It keeps a record of its calls, of which its past
/// and what a crash may leave are made.
#[derive(Drop)]
pub struct MemoryDisk {
    files: Files,
    story: Story,
    calls: Calls,
}

impl Model for MemoryDisk {
    ghost use Rattle.disk_model.specs.Memory.{MemoryValue, IsKept};

    ghost Value = { MemoryValue };

    ghost view = { λ d. record { story = d.story; calls = d.calls } };

    ghost invariant = { λ d. IsKept d.files d.story d.calls };
}

impl MemoryDisk {
    /// A disk of four empty files. Every call of `Disk` but `faults` has a number, from 1.
    ///
    /// The calls with the numbers in `fails` fail, all above `calls`, and each write with which the
    /// bytes of all its writes that did not fail would be more than `bytes`. Order and repeats in
    /// `fails` do not matter.
    pub fn new(alloc: Global, bytes: u64, calls: u64, fails: &[u64]) -> Result<Self, NoMemory>
        ensures { IfOk result (λ disk. disk ≡ record {
          story = record { told = []; written = []; most = calls; room = bytes };
          calls = fresh_count fails.now calls;
        }) }
    {
        Ok(MemoryDisk {
            files: Files::new(alloc, bytes as usize)?,
            story: Story::new(alloc, calls as usize, bytes as usize)?,
            calls: Calls::new(Vec::from_slice(alloc, fails)?, calls),
        })
    }
}

impl Disk for MemoryDisk {
    ghost is_honest = { λ _. Unit {0} };

    ghost past = { memory_past };

    ghost size = { memory_size };

    ghost fault_count = { λ disk. disk.calls.faults };

    ghost sizes_are = { λ _ _ _. refl };

    fn read_at(&mut self, file: u8, at: u64, room: &mut [u8]) -> Result<usize, DiskFailed>
        requires file { file < 4 }
        requires within { at ≤ memory_size self.old file }
        ensures listed { IsErr result ↔ FailsNext self.old.calls }
        ensures count { IfOk result (λ n.
            n ≡ min (length room.old) (memory_size self.old file - at)) }
        ensures moved { IfOk result (λ n.
            room.new ≡ take n (drop at (seen (memory_past self.old) file)) ++ drop n room.old) }
        ensures room { OnErr result (room.new ≡ room.old) }
        ensures same { memory_past self.new ≡ memory_past self.old }
        ensures faults { CountsFault self.old.calls.faults self.new.calls.faults result }
    {
        if self.calls.begin() {
            return Err(DiskFailed);
        }
        let bytes = self.files.bytes(file as usize);
        Ok(fill(room, &bytes[at as usize..]))
    }

    fn write_at(&mut self, file: u8, at: u64, bytes: &[u8]) -> Result<(), DiskFailed>
        requires file { file < 4 }
        requires within { at ≤ memory_size self.old file }
        ensures listed { IsErr result
            ↔ (FailsNext self.old.calls ⊎ HasNoRoom self.old (length bytes.now)) }
        ensures written { OnOk result
            (memory_past self.new ≡ with_write (memory_past self.old) file at bytes.now) }
        ensures kept { OnErr result (memory_past self.new ≡ memory_past self.old) }
        ensures room { self.new.story.room ≡ self.old.story.room }
        ensures bytes { OnOk result
            (self.new.story.written ≡ self.old.story.written ++ bytes.now) }
        ensures bytes_kept { OnErr result (self.new.story.written ≡ self.old.story.written) }
        ensures reaches { OnOk result (at + length bytes.now ≤ memory_size self.new file) }
        ensures no_less { memory_size self.old file ≤ memory_size self.new file }
        ensures others { (f : ℕ) → f ≢ file → memory_size self.new f ≡ memory_size self.old f }
        ensures faults { CountsFault self.old.calls.faults self.new.calls.faults result }
    {
        if self.calls.begin() {
            return Err(DiskFailed);
        }
        if !self.story.has_room(bytes.len()) {
            self.calls.fail();
            return Err(DiskFailed);
        }
        self.files.write(file as usize, at as usize, bytes);
        self.story.write(file, at as usize, bytes);
        Ok(())
    }

    fn cut(&mut self, file: u8, length: u64) -> Result<(), DiskFailed>
        requires file { file < 4 }
        requires within { length ≤ memory_size self.old file }
        ensures listed { IsErr result ↔ FailsNext self.old.calls }
        ensures cut { OnOk result
            (memory_past self.new ≡ with_cut (memory_past self.old) file length) }
        ensures kept { OnErr result (memory_past self.new ≡ memory_past self.old) }
        ensures exact { OnOk result (memory_size self.new file ≡ length) }
        ensures no_less { length ≤ memory_size self.new file }
        ensures no_more { memory_size self.new file ≤ memory_size self.old file }
        ensures others { (f : ℕ) → f ≢ file → memory_size self.new f ≡ memory_size self.old f }
        ensures faults { CountsFault self.old.calls.faults self.new.calls.faults result }
    {
        if self.calls.begin() {
            return Err(DiskFailed);
        }
        self.files.cut(file as usize, length as usize);
        self.story.cut(file, length as usize);
        Ok(())
    }

    fn sync(&mut self, file: u8) -> Result<(), DiskFailed>
        requires { file < 4 }
        ensures listed { IsErr result ↔ FailsNext self.old.calls }
        ensures synced { OnOk result
            (memory_past self.new ≡ with_sync (memory_past self.old) file) }
        ensures kept { OnErr result (memory_past self.new ≡ memory_past self.old) }
        ensures sizes { (f : ℕ) → memory_size self.new f ≡ memory_size self.old f }
        ensures faults { CountsFault self.old.calls.faults self.new.calls.faults result }
    {
        if self.calls.begin() {
            return Err(DiskFailed);
        }
        self.story.sync(file);
        Ok(())
    }

    fn len(&mut self, file: u8) -> Result<u64, DiskFailed>
        requires { file < 4 }
        ensures listed { IsErr result ↔ FailsNext self.old.calls }
        ensures length { IfOk result (λ n. n ≡ memory_size self.old file) }
        ensures same { memory_past self.new ≡ memory_past self.old }
        ensures faults { CountsFault self.old.calls.faults self.new.calls.faults result }
    {
        if self.calls.begin() {
            return Err(DiskFailed);
        }
        Ok(self.files.bytes(file as usize).len() as u64)
    }

    fn faults(&self) -> u64
        ensures { result ≡ self.now.calls.faults }
    {
        self.calls.faults()
    }
}

/// Moves the first of the bytes into the room, as many as fit: how many.
fn fill(room: &mut [u8], bytes: &[u8]) -> usize
    ensures count { result ≡ min (length room.old) (length bytes.now) }
    ensures moved { room.new ≡ take result bytes.now ++ drop result room.old }
{
    let count = room.len().min(bytes.len());
    room[..count].copy_from_slice(&bytes[..count]);
    count
}
