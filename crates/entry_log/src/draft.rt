//! An entry that is ready to be written.
ghost use Rattle.std.specs.Prelude.{◌≡◌, ◌+◌, false, IfOk, IsErrOf};
ghost use Rattle.byte_forms.specs.Commands.{KeepsForm};
ghost use Rattle.entry_log.specs.Log.{entry_logging, log_in, MayFollow};

use crate::fault::DraftFault;
use crate::log::EntryLog;
use crate::room::room_for;
use entry_codec::write_entry;
use journal::{Record, make_record};
use site_types::Entry;
use std::alloc::Global;

/// An entry with its record, ready to be written.
#[derive(Drop)]
pub struct Draft {
    pub(crate) entry: Entry,
    pub(crate) piece: Record,
    /// How many bytes the entry's form has.
    pub(crate) size: u64,
}

impl EntryLog {
    /// Readies the entry after the last one. `Full` comes exactly where the log has no room for it;
    /// `Memory` may come in its place.
    ///
    /// Nothing is written, and the log stays as it is. All memory that `append` needs is taken here.
    pub fn draft(&self, alloc: Global, entry: Entry) -> Result<Draft, DraftFault>
        requires number { entry.number ≡ self.now.number + 1 }
        requires command { KeepsForm entry.command }
        ensures ok { IfOk result (λ draft. (draft.entry ≡ entry) × MayFollow self.now draft) }
        ensures full { IsErrOf result DraftFault.Full
            → entry_logging.has_room self.now.number (log_in self.now) entry ≡ false }
    {
        let Ok(bytes) = write_entry(alloc, &entry) else {
            return Err(DraftFault::Memory);
        };
        let size = bytes.len();
        let gate = self.journal.gate();
        if !room_for(self.entries, self.bytes, gate, size as u64) {
            return Err(DraftFault::Full);
        }
        match make_record(alloc, bytes.as_slice()) {
            Ok(piece) => Ok(Draft {
                entry,
                piece,
                size: size as u64,
            }),
            Err(_) => Err(DraftFault::Memory),
        }
    }
}
