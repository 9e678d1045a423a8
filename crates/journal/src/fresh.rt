//! A new journal.
ghost use Rattle.std.specs.Prelude.{◌≡◌, ◌≢◌, ℕ, false, List, [], ◌∷◌, ◌++◌, IfOk, OnOk};
ghost use Rattle.disk_model.specs.Images.{EachHolds, LeavesOnly};
ghost use Rattle.disk_model.specs.OneFile.{KeepsOthers, InFile};
ghost use Rattle.disk_model.specs.Faults.{CountsFault};
ghost use Rattle.journal.specs.Form.{journal_file as file_of, header};
ghost use Rattle.journal.specs.Journal.{Holds};

use crate::form::{HEADER_SIZE, fresh_bytes, journal_file};
use crate::journal::Journal;
use disk_model::{Disk, DiskFailed, cut_synced};

/// Makes journal `k` anew in its file: a header, a closed gate and no records.
///
/// Whatever was in the file is lost. After `Ok` the journal is on the disk.
pub fn create<D: Disk>(disk: &mut D, k: u64) -> Result<Journal, DiskFailed>
    ensures honest { D.is_honest disk.old → D.is_honest disk.new }
    ensures journal { IfOk result (λ journal.
        journal ≡ record { k = k; gate = 16; pending = false }) }
    ensures holds { D.is_honest disk.old
        → IfOk result (λ journal. Holds journal (D.past disk.new) []) }
    ensures exact { D.is_honest disk.old → OnOk result (EachHolds (D.past disk.new) (file_of k)
        (λ held. held ≡ header k ++ 0 ∷ [])) }
    // At any moment a crash leaves the other files as it might before.
    ensures any_moment { D.is_honest disk.old → LeavesOnly (D.past disk.old) (D.past disk.new)
        (InFile (D.past disk.old) (file_of k) (λ _. Unit {0})) }
    ensures others { D.is_honest disk.old →
        KeepsOthers (D.past disk.old) (D.past disk.new) (file_of k) }
    ensures size { OnOk result (D.size disk.new (file_of k) ≡ HEADER_SIZE) }
    ensures sizes { (f : ℕ) → f ≢ file_of k → D.size disk.new f ≡ D.size disk.old f }
    ensures faults { CountsFault (D.fault_count disk.old) (D.fault_count disk.new) result }
{
    let file = journal_file(k);
    disk.write_at(file, 0, &fresh_bytes(k))?;
    cut_synced(disk, file, HEADER_SIZE)?;
    Ok(Journal::at(k, HEADER_SIZE - 1))
}
