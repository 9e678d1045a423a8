//! A record that can be appended to a journal.
ghost use Rattle.std.specs.Prelude.{◌≡◌, ◌^◌, ◌<◌, ◌++◌, [], ◌∷◌, length, IfOk};
ghost use Rattle.journal.specs.Form.{record_of};

use disk_model::NoMemory;
use std::alloc::Global;
use std::marker::Model;

/// A payload with what goes round it in the file: its length before it, and a closed gate after it.
#[derive(Drop)]
pub struct Record {
    bytes: Vec<u8>,
}

impl Model for Record {
    ghost use Rattle.std.specs.Prelude.{ℕ, List};
    ghost use Rattle.journal.specs.Record.{payload_in, IsRecord};

    ghost Value = { List ℕ };

    ghost view = { λ r. payload_in r.bytes.items };

    ghost invariant = { λ r. IsRecord r.bytes.items };
}

impl Record {
    /// The bytes of the record, and a closed gate.
    pub(crate) fn bytes(&self) -> &[u8]
        ensures bytes { result.now ≡ record_of self.now ++ 0 ∷ [] }
        ensures fits { length self.now < 2 ^ 32 }
    {
        self.bytes.as_slice()
    }
}

/// A record of a payload, which has fewer than 2^32 bytes.
pub fn make_record(alloc: Global, payload: &[u8]) -> Result<Record, NoMemory>
    requires { length payload.now < 2 ^ 32 }
    ensures { IfOk result (λ piece. piece ≡ payload.now) }
{
    let mut bytes = Vec::with_capacity(alloc, payload.len() + 5)?;
    bytes.extend_from_slice(&(payload.len() as u32).to_be_bytes())?;
    bytes.extend_from_slice(payload)?;
    bytes.push(0)?;
    Ok(Record { bytes })
}
