//! Appending to a journal, and closing a gate that is in doubt.
ghost use Rattle.std.specs.Prelude.{◌≡◌, ◌≢◌, ℕ, ◌+◌, ◌≤◌, true, false, List, [], ◌∷◌, ◌++◌, length, IsOk, OnOk, OnErr};
ghost use Rattle.disk_model.specs.Images.{LeavesOnly};
ghost use Rattle.disk_model.specs.OneFile.{KeepsOthers, InFile};
ghost use Rattle.disk_model.specs.Faults.{CountsFault};
ghost use Rattle.journal.specs.Form.{journal_file as file_of, RecoversEither};
ghost use Rattle.journal.specs.Journal.{Holds, HoldsInDoubt};

use crate::form::{MAX_FILE_SIZE, journal_file};
use crate::journal::Journal;
use crate::record::Record;
use disk_model::{Disk, DiskFailed, write_synced};

impl Journal {
    /// Appends a record. After `Ok` it is on the disk.
    ///
    /// It writes the record after the last gate, with a closed gate after it, and opens the last
    /// gate once that is on the disk. After `DiskFailed` the journal holds what it held, and
    /// `pending` says whether the record is in doubt.
    pub fn append<D: Disk>(&mut self, disk: &mut D, piece: &Record) -> Result<(), DiskFailed>
        requires sure { self.old.pending ≡ false }
        requires reaches { self.old.gate + 1 ≤ D.size disk.old (file_of self.old.k) }
        requires room { self.old.gate + 6 + length piece.now ≤ MAX_FILE_SIZE }
        ensures honest { D.is_honest disk.old → D.is_honest disk.new }
        ensures ok { (payloads : List (List ℕ)) → D.is_honest disk.old
            → Holds self.old (D.past disk.old) payloads
            → OnOk result (Holds self.new (D.past disk.new) (payloads ++ piece.now ∷ [])) }
        ensures closed { (payloads : List (List ℕ)) → D.is_honest disk.old
            → Holds self.old (D.past disk.old) payloads
            → OnErr result (self.new.pending ≡ false
            → Holds self.new (D.past disk.new) payloads) }
        ensures doubt { (payloads : List (List ℕ)) → D.is_honest disk.old
            → Holds self.old (D.past disk.old) payloads
            → OnErr result (self.new.pending ≡ true
            → HoldsInDoubt self.new (D.past disk.new) payloads piece.now) }
        // A crash at any moment leaves the payloads from before, with the new one or without.
        ensures any_moment { (payloads : List (List ℕ)) → D.is_honest disk.old
            → Holds self.old (D.past disk.old) payloads
            → LeavesOnly (D.past disk.old) (D.past disk.new)
            (InFile (D.past disk.old) (file_of self.old.k)
            (RecoversEither self.old.k payloads piece.now)) }
        ensures others { D.is_honest disk.old →
            KeepsOthers (D.past disk.old) (D.past disk.new) (file_of self.old.k) }
        ensures k { self.new.k ≡ self.old.k }
        ensures sure { OnOk result (self.new.pending ≡ false) }
        ensures gate { OnOk result (self.new.gate ≡ self.old.gate + 5 + length piece.now) }
        ensures gate_kept { OnErr result (self.new.gate ≡ self.old.gate) }
        ensures reaches { self.new.gate + 1 ≤ D.size disk.new (file_of self.old.k) }
        ensures sizes { (f : ℕ) → f ≢ file_of self.old.k → D.size disk.new f ≡ D.size disk.old f }
        ensures faults { CountsFault (D.fault_count disk.old) (D.fault_count disk.new) result }
    {
        let file = journal_file(self.k());
        let gate = self.gate();
        let bytes = piece.bytes();
        write_synced(disk, file, gate + 1, bytes)?;
        self.doubt();
        write_synced(disk, file, gate, &[1])?;
        self.settle(gate + bytes.len() as u64);
        Ok(())
    }

    /// Closes the last gate if it is in doubt. After `Ok` nothing is in doubt.
    ///
    /// After `DiskFailed` the same record is in doubt as before, and no other.
    pub fn repair<D: Disk>(&mut self, disk: &mut D) -> Result<(), DiskFailed>
        requires { self.old.pending ≡ true
            → self.old.gate + 1 ≤ D.size disk.old (file_of self.old.k) }
        ensures honest { D.is_honest disk.old → D.is_honest disk.new }
        ensures idle { self.old.pending ≡ false
            → IsOk result × (disk.new ≡ disk.old) × (self.new ≡ self.old) }
        ensures ok { (payloads : List (List ℕ)) (payload : List ℕ) → D.is_honest disk.old
            → HoldsInDoubt self.old (D.past disk.old) payloads payload
            → OnOk result (Holds self.new (D.past disk.new) payloads) }
        ensures err { (payloads : List (List ℕ)) (payload : List ℕ) → D.is_honest disk.old
            → HoldsInDoubt self.old (D.past disk.old) payloads payload
            → OnErr result (HoldsInDoubt self.new (D.past disk.new) payloads payload) }
        ensures any_moment { (payloads : List (List ℕ)) (payload : List ℕ)
            → D.is_honest disk.old
            → HoldsInDoubt self.old (D.past disk.old) payloads payload
            → LeavesOnly (D.past disk.old) (D.past disk.new)
            (InFile (D.past disk.old) (file_of self.old.k)
            (RecoversEither self.old.k payloads payload)) }
        ensures others { D.is_honest disk.old →
            KeepsOthers (D.past disk.old) (D.past disk.new) (file_of self.old.k) }
        ensures sure { OnOk result (self.new ≡ record self.old { pending = false }) }
        ensures kept { OnErr result (self.new ≡ self.old) }
        ensures no_less { D.size disk.old (file_of self.old.k)
            ≤ D.size disk.new (file_of self.old.k) }
        ensures sizes { (f : ℕ) → f ≢ file_of self.old.k → D.size disk.new f ≡ D.size disk.old f }
        ensures faults { CountsFault (D.fault_count disk.old) (D.fault_count disk.new) result }
    {
        if !self.pending() {
            return Ok(());
        }
        let gate = self.gate();
        write_synced(disk, journal_file(self.k()), gate, &[0])?;
        self.settle(gate);
        Ok(())
    }
}
