//! Appending an entry.
ghost use Rattle.std.specs.Prelude.{◌≡◌, ◌≢◌, ◌+◌, ◌≤◌, ◌<◌, ℕ, None, List, [], ◌∷◌, ◌++◌, length, Option, OnOk, OnErr, false};
ghost use Rattle.disk_model.specs.Images.{LeavesOnly};
ghost use Rattle.disk_model.specs.OneFile.{KeepsOthers, InFile};
ghost use Rattle.disk_model.specs.Faults.{CountsFault};
ghost use Rattle.site_types.specs.declared.entry.Entry.{Entry};
ghost use Rattle.site_history.specs.Log.{MAX_ENTRIES, MAX_ENTRY_BYTES, LAST_NUMBER};
ghost use Rattle.journal.specs.Form.{journal_file as file_of};
ghost use Rattle.journal.specs.Journal.{Holds};
ghost use Rattle.journal.specs.declared.form.TheConstants.{MAX_FILE_SIZE};
ghost use Rattle.entry_log.specs.Appending.{HoldsPayloads, HoldsAfterFault, RecoversOneOf};
ghost use Rattle.entry_log.specs.Entries.{RecoversAmong};
ghost use Rattle.entry_log.specs.Log.{Keeps, KeepsAfterFault, MayFollow, entry_logging, log_in};

use crate::draft::Draft;
use crate::log::EntryLog;
use journal::{Disk, DiskFailed, Journal, Record};

impl EntryLog {
    /// Appends an entry. After `Ok` it is on the disk.
    ///
    /// A gate in doubt is closed first. With none in doubt it makes two writes and two syncs, and
    /// otherwise three of each. It takes no memory. After `DiskFailed` the log holds what it held,
    /// and at most one entry is in doubt: this one, or the one that was in doubt before.
    pub fn append<D: Disk>(&mut self, disk: &mut D, draft: &Draft) -> Result<(), DiskFailed>
        requires reaches { self.old.journal.gate + 1 ≤ D.size disk.old (file_of self.old.journal.k) }
        requires follows { MayFollow self.old draft.now }
        ensures honest { D.is_honest disk.old → D.is_honest disk.new }
        ensures ok { (base : ℕ) (entries : List Entry) (doubt : Option Entry) → D.is_honest disk.old
            → Keeps self.old (D.past disk.old) base entries doubt
            → OnOk result (Keeps self.new (D.past disk.new) base (entries ++ draft.now.entry ∷ []) None) }
        ensures err { (base : ℕ) (entries : List Entry) (doubt : Option Entry) → D.is_honest disk.old
            → Keeps self.old (D.past disk.old) base entries doubt
            → OnErr result
            (KeepsAfterFault self.new (D.past disk.new) base entries doubt draft.now.entry) }
        // A crash at any moment leaves the entries from before, with the new one, with the one that
        // was in doubt, or without.
        ensures any_moment { (base : ℕ) (entries : List Entry) (doubt : Option Entry)
            → D.is_honest disk.old → Keeps self.old (D.past disk.old) base entries doubt
            → LeavesOnly (D.past disk.old) (D.past disk.new)
            (InFile (D.past disk.old) (file_of self.old.journal.k)
            (RecoversAmong self.old.journal.k base entries doubt draft.now.entry)) }
        ensures others { D.is_honest disk.old →
            KeepsOthers (D.past disk.old) (D.past disk.new) (file_of self.old.journal.k) }
        ensures k { self.new.journal.k ≡ self.old.journal.k }
        ensures sure { OnOk result (self.new.journal.pending ≡ false) }
        ensures number { OnOk result (self.new.number ≡ self.old.number + 1) }
        ensures log { OnOk result (log_in self.new ≡
            entry_logging.logged (log_in self.old) draft.now.entry) }
        ensures number_kept { OnErr result (self.new.number ≡ self.old.number) }
        ensures log_kept { OnErr result (log_in self.new ≡ log_in self.old) }
        ensures reaches { self.new.journal.gate + 1
            ≤ D.size disk.new (file_of self.old.journal.k) }
        ensures sizes { (f : ℕ) → f ≢ file_of self.old.journal.k
            → D.size disk.new f ≡ D.size disk.old f }
        ensures faults { CountsFault (D.fault_count disk.old) (D.fault_count disk.new) result }
    {
        match append_to(&mut self.journal, disk, &draft.piece) {
            Err(fault) => Err(fault),
            Ok(()) => {
                self.count(draft.size);
                Ok(())
            }
        }
    }

    /// Counts an entry whose form has so many bytes, and which was written.
    fn count(&mut self, size: u64)
        requires entries { self.old.entries < MAX_ENTRIES }
        requires bytes { self.old.bytes + size ≤ MAX_ENTRY_BYTES }
        requires number { self.old.number < LAST_NUMBER }
        ensures { self.new ≡ record self.old {
          number = self.old.number + 1;
          entries = self.old.entries + 1;
          bytes = self.old.bytes + size;
        } }
    {
        self.number += 1;
        self.entries += 1;
        self.bytes += size;
    }
}

/// Appends a record to a journal, and closes a gate in doubt first.
///
/// After `DiskFailed` at most one record is in doubt: this one, or the one that was before.
fn append_to<D: Disk>(journal: &mut Journal, disk: &mut D, piece: &Record) -> Result<(), DiskFailed>
    requires reaches { journal.old.gate + 1 ≤ D.size disk.old (file_of journal.old.k) }
    requires room { journal.old.gate + 6 + length piece.now ≤ MAX_FILE_SIZE }
    ensures honest { D.is_honest disk.old → D.is_honest disk.new }
    ensures ok { (payloads : List (List ℕ)) (doubt : Option (List ℕ)) → D.is_honest disk.old
        → HoldsPayloads journal.old (D.past disk.old) payloads doubt
        → OnOk result (Holds journal.new (D.past disk.new) (payloads ++ piece.now ∷ [])) }
    ensures err { (payloads : List (List ℕ)) (doubt : Option (List ℕ)) → D.is_honest disk.old
        → HoldsPayloads journal.old (D.past disk.old) payloads doubt
        → OnErr result
        (HoldsAfterFault journal.new (D.past disk.new) payloads doubt piece.now) }
    ensures any_moment { (payloads : List (List ℕ)) (doubt : Option (List ℕ))
        → D.is_honest disk.old → HoldsPayloads journal.old (D.past disk.old) payloads doubt
        → LeavesOnly (D.past disk.old) (D.past disk.new)
        (InFile (D.past disk.old) (file_of journal.old.k)
        (RecoversOneOf journal.old.k payloads doubt piece.now)) }
    ensures others { D.is_honest disk.old →
        KeepsOthers (D.past disk.old) (D.past disk.new) (file_of journal.old.k) }
    ensures k { journal.new.k ≡ journal.old.k }
    ensures sure { OnOk result (journal.new.pending ≡ false) }
    ensures gate { OnOk result (journal.new.gate ≡ journal.old.gate + 5 + length piece.now) }
    ensures gate_kept { OnErr result (journal.new.gate ≡ journal.old.gate) }
    ensures reaches { journal.new.gate + 1 ≤ D.size disk.new (file_of journal.old.k) }
    ensures sizes { (f : ℕ) → f ≢ file_of journal.old.k
        → D.size disk.new f ≡ D.size disk.old f }
    ensures faults { CountsFault (D.fault_count disk.old) (D.fault_count disk.new) result }
{
    match journal.repair(disk) {
        Err(failed) => Err(failed),
        Ok(()) => journal.append(disk, piece),
    }
}
