//! Bytes that are written from front to back: bytes and numbers.

ghost use Rattle.std.specs.Prelude.{◌≡◌, [], ◌∷◌, ◌++◌, IfOk, OnOk};
ghost use Rattle.std.specs.Int.{w16, to_be_bytes};
ghost use Rattle.byte_forms.specs.Fields.{u32_form, u64_form};

use byteorder::{BigEndian, ByteOrder};
use site_types::{Bytes, NoMemory};
use std::alloc::Global;
use std::marker::Model;

/// Bytes that grow at their end. A contract sees the list of them.
#[derive(Drop)]
pub struct Writer {
    bytes: Vec<u8>,
}

impl Model for Writer {
    ghost use Rattle.std.specs.Prelude.{ℕ, List};

    ghost Value = { List ℕ };

    ghost view = { λ writer. writer.bytes.items };
}

impl Writer {
    /// A writer without bytes that has room for so many.
    pub fn with_room(alloc: Global, room: usize) -> Result<Self, NoMemory>
        ensures { IfOk result (λ writer. writer ≡ []) }
    {
        let bytes = Vec::with_capacity(alloc, room)?;
        Ok(Writer { bytes })
    }

    /// The bytes that were written.
    pub fn finish(self) -> Bytes
        ensures { result ≡ self }
    {
        let Writer { bytes } = self;
        Bytes::from_vec(bytes)
    }

    /// Writes a byte.
    pub fn byte(&mut self, byte: u8) -> Result<(), NoMemory>
        ensures { OnOk result (self.new ≡ self.old ++ byte ∷ []) }
    {
        self.bytes.push(byte)?;
        Ok(())
    }

    /// Writes these bytes.
    pub fn bytes(&mut self, bytes: &[u8]) -> Result<(), NoMemory>
        ensures { OnOk result (self.new ≡ self.old ++ bytes.now) }
    {
        self.bytes.extend_from_slice(bytes)?;
        Ok(())
    }

    /// Writes a number in two bytes.
    pub fn u16(&mut self, n: u16) -> Result<(), NoMemory>
        ensures { OnOk result (self.new ≡ self.old ++ to_be_bytes w16 n) }
    {
        let mut bytes = [0u8; 2];
        BigEndian::write_u16(&mut bytes, n);
        self.bytes(&bytes)
    }

    /// Writes a number in four bytes.
    #[tactic(auto, unfolding(byte_forms::specs::Fields::u32_form))]
    pub fn u32(&mut self, n: u32) -> Result<(), NoMemory>
        ensures { OnOk result (self.new ≡ self.old ++ u32_form n) }
    {
        let mut bytes = [0u8; 4];
        BigEndian::write_u32(&mut bytes, n);
        self.bytes(&bytes)
    }

    /// Writes a number in eight bytes.
    #[tactic(auto, unfolding(byte_forms::specs::Fields::u64_form))]
    pub fn u64(&mut self, n: u64) -> Result<(), NoMemory>
        ensures { OnOk result (self.new ≡ self.old ++ u64_form n) }
    {
        let mut bytes = [0u8; 8];
        BigEndian::write_u64(&mut bytes, n);
        self.bytes(&bytes)
    }
}
