//! A place in bytes, and what is read from there on: bytes and numbers.

ghost use Rattle.std.specs.Prelude.{◌≡◌, length, IfOk};
ghost use Rattle.content_codec.specs.Reading.{Reads, ReadsAs, byte_at, bytes_at, number_at};

use crate::ReadFault;
use byteorder::{BigEndian, ByteOrder};
use std::marker::Model;

/// Bytes that are read from front to back. A contract sees those that are left.
///
/// Once a value was read, the bytes after it are left. After a fault nothing is said of what is
/// left.
#[derive(Drop)]
pub struct Reader<'a> {
    bytes: &'a [u8],
}

impl<'a> Model for Reader<'a> {
    ghost use Rattle.std.specs.Prelude.{ℕ, List};

    ghost Value = { List ℕ };

    ghost view = { λ reader. reader.bytes.now };
}

impl<'a> Reader<'a> {
    /// A reader of these bytes.
    pub fn new(bytes: &'a [u8]) -> Self
        ensures { result ≡ bytes.now }
    {
        Reader { bytes }
    }

    /// The number of bytes that are left.
    pub fn left(&self) -> usize
        ensures { result ≡ length self.now }
    {
        self.bytes.len()
    }

    /// The next byte.
    #[tactic(auto, unfolding(crate::specs::Reading::byte_at))]
    pub fn byte(&mut self) -> Result<u8, ReadFault>
        ensures { Reads result (byte_at self.old) self.new }
    {
        let Some((byte, rest)) = self.bytes.split_first() else {
            return Err(ReadFault::NoForm);
        };
        self.bytes = rest;
        Ok(*byte)
    }

    /// The next `count` bytes.
    #[tactic(auto, unfolding(crate::specs::Reading::bytes_at))]
    pub fn bytes(&mut self, count: usize) -> Result<&'a [u8], ReadFault>
        ensures value { ReadsAs (λ front. front.now) result (bytes_at count self.old) self.new }
        ensures size { IfOk result (λ front. length front.now ≡ count) }
    {
        let Some((front, rest)) = self.bytes.split_at_checked(count) else {
            return Err(ReadFault::NoForm);
        };
        self.bytes = rest;
        Ok(front)
    }

    /// The next number of two bytes.
    #[tactic(auto, unfolding(crate::specs::Reading::number_at))]
    pub fn u16(&mut self) -> Result<u16, ReadFault>
        ensures { Reads result (number_at 2 self.old) self.new }
    {
        Ok(BigEndian::read_u16(self.bytes(2)?))
    }

    /// The next number of four bytes.
    #[tactic(auto, unfolding(crate::specs::Reading::number_at))]
    pub fn u32(&mut self) -> Result<u32, ReadFault>
        ensures { Reads result (number_at 4 self.old) self.new }
    {
        Ok(BigEndian::read_u32(self.bytes(4)?))
    }

    /// The next number of eight bytes.
    #[tactic(auto, unfolding(crate::specs::Reading::number_at))]
    pub fn u64(&mut self) -> Result<u64, ReadFault>
        ensures { Reads result (number_at 8 self.old) self.new }
    {
        Ok(BigEndian::read_u64(self.bytes(8)?))
    }
}
