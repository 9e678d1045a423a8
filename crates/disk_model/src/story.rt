//! The record of what a disk in memory was told.
ghost use Rattle.std.specs.Prelude.{◌≡◌, ◌↔◌, ◌+◌, ◌<◌, ◌≤◌, ◌++◌, [], ◌∷◌, length, IsTrue, IfOk};
ghost use Rattle.disk_model.specs.Past.{with_write, with_cut, with_sync};
ghost use Rattle.disk_model.specs.Story.{StoryValue, past_of};

use crate::no_memory::NoMemory;
use crate::told::Told;
use std::alloc::Global;
use std::marker::Model;

/// The calls that did something, in order, and the bytes of all writes among them.
///
/// It has memory from the start for `most` calls, and for `room` bytes of writes.
#[derive(Drop)]
pub(crate) struct Story {
    told: Vec<Told>,
    written: Vec<u8>,
    most: usize,
    room: usize,
}

impl Model for Story {
    ghost use Rattle.disk_model.specs.Story.{StoryValue, IsStory};

    ghost Value = { StoryValue };

    ghost view = { λ s. record {
      told = s.told.items;
      written = s.written.items;
      most = s.most;
      room = s.room;
    } };

    ghost invariant = { λ s. IsStory s.told s.written s.most s.room };
}

impl Story {
    /// No calls yet.
    pub(crate) fn new(alloc: Global, most: usize, room: usize) -> Result<Self, NoMemory>
        ensures { IfOk result (λ story.
            story ≡ record { told = []; written = []; most = most; room = room }) }
    {
        Ok(Story {
            told: Vec::with_capacity(alloc, most)?,
            written: Vec::with_capacity(alloc, room)?,
            most,
            room,
        })
    }

    /// Is there room for a write of so many bytes?
    pub(crate) fn has_room(&self, count: usize) -> bool
        ensures { IsTrue result ↔ (length self.now.written + count ≤ self.now.room) }
    {
        count <= self.room - self.written.len()
    }

    /// Adds a write.
    pub(crate) fn write(&mut self, file: u8, at: usize, bytes: &[u8])
        requires turn { length self.old.told < self.old.most }
        requires room { length self.old.written + length bytes.now ≤ self.old.room }
        ensures past { past_of self.new ≡ with_write (past_of self.old) file at bytes.now }
        ensures told { length self.new.told ≡ length self.old.told + 1 }
        ensures written { self.new.written ≡ self.old.written ++ bytes.now }
        ensures room_same { (self.new.most ≡ self.old.most) × (self.new.room ≡ self.old.room) }
    {
        match self.written.extend_from_slice(bytes) {
            Ok(()) => {}
            Err(_) => unreachable!(),
        }
        let count = bytes.len();
        match self.told.push(Told::Write { file, at, count }) {
            Ok(()) => {}
            Err(_) => unreachable!(),
        }
    }

    /// Adds a cut.
    pub(crate) fn cut(&mut self, file: u8, size: usize)
        requires { length self.old.told < self.old.most }
        ensures past { past_of self.new ≡ with_cut (past_of self.old) file size }
        ensures told { length self.new.told ≡ length self.old.told + 1 }
        ensures written { self.new.written ≡ self.old.written }
        ensures room_same { (self.new.most ≡ self.old.most) × (self.new.room ≡ self.old.room) }
    {
        match self.told.push(Told::Cut { file, size }) {
            Ok(()) => {}
            Err(_) => unreachable!(),
        }
    }

    /// Adds a sync.
    pub(crate) fn sync(&mut self, file: u8)
        requires { length self.old.told < self.old.most }
        ensures past { past_of self.new ≡ with_sync (past_of self.old) file }
        ensures told { length self.new.told ≡ length self.old.told + 1 }
        ensures written { self.new.written ≡ self.old.written }
        ensures room_same { (self.new.most ≡ self.old.most) × (self.new.room ≡ self.old.room) }
    {
        match self.told.push(Told::Sync { file }) {
            Ok(()) => {}
            Err(_) => unreachable!(),
        }
    }
}
