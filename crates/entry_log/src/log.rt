//! A log of entries in memory.
ghost use Rattle.std.specs.Prelude.{◌≡◌, ◌≢◌, ◌+◌, ℕ, false, None, [], IfOk, IfSome, OnOk, IfNone};
ghost use Rattle.disk_model.specs.Images.{LeavesOnly};
ghost use Rattle.disk_model.specs.OneFile.{KeepsOthers, InFile};
ghost use Rattle.disk_model.specs.Faults.{CountsFault};
ghost use Rattle.site_history.specs.Log.{LAST_NUMBER};
ghost use Rattle.journal.specs.Form.{journal_file as file_of};
ghost use Rattle.entry_log.specs.Log.{Keeps, fresh_log};

use journal::{Disk, DiskFailed, Journal};

/// A log of entries that is appended to. What it holds is on the disk.
#[derive(Drop)]
pub struct EntryLog {
    pub(crate) journal: Journal,
    /// The number of the last entry.
    pub(crate) number: u64,
    /// How many entries were written since it was opened.
    pub(crate) entries: u64,
    /// How many bytes their forms have.
    pub(crate) bytes: u64,
}

/// Makes journal `k` anew in its file, for the entries after the one with this number.
///
/// Whatever was in the file is lost. It makes one write, one cut and one sync.
pub fn create<D: Disk>(disk: &mut D, k: u64, number: u64) -> Result<EntryLog, DiskFailed>
    ensures honest { D.is_honest disk.old → D.is_honest disk.new }
    ensures log { IfOk result (λ log.
        log ≡ fresh_log (record { k = k; gate = 16; pending = false }) number) }
    ensures keeps { D.is_honest disk.old
        → IfOk result (λ log. Keeps log (D.past disk.new) number [] None) }
    // At any moment a crash leaves the other files as it might before.
    ensures any_moment { D.is_honest disk.old → LeavesOnly (D.past disk.old) (D.past disk.new)
        (InFile (D.past disk.old) (file_of k) (λ _. Unit {0})) }
    ensures others { D.is_honest disk.old →
        KeepsOthers (D.past disk.old) (D.past disk.new) (file_of k) }
    ensures size { OnOk result (D.size disk.new (file_of k) ≡ 17) }
    ensures sizes { (f : ℕ) → f ≢ file_of k → D.size disk.new f ≡ D.size disk.old f }
    ensures faults { CountsFault (D.fault_count disk.old) (D.fault_count disk.new) result }
{
    match journal::create(disk, k) {
        Err(failed) => Err(failed),
        Ok(journal) => Ok(EntryLog::at(journal, number)),
    }
}

impl EntryLog {
    /// A log of a journal whose last entry has this number. Nothing was written yet.
    pub(crate) fn at(journal: Journal, number: u64) -> Self
        ensures { result ≡ fresh_log journal number }
    {
        EntryLog {
            journal,
            number,
            entries: 0,
            bytes: 0,
        }
    }

    /// The number of its journal.
    pub fn k(&self) -> u64
        ensures { result ≡ self.now.journal.k }
    {
        self.journal.k()
    }

    /// The number of the last entry.
    pub fn number(&self) -> u64
        ensures { result ≡ self.now.number }
    {
        self.number
    }

    /// The number that the next entry has, or `None` exactly if the last entry has the greatest
    /// number.
    pub fn next_number(&self) -> Option<u64>
        ensures some { IfSome result (λ number. number ≡ self.now.number + 1) }
        ensures none { IfNone result (self.now.number ≡ LAST_NUMBER) }
    {
        self.number.checked_add(1)
    }

    /// Is it in doubt whether the last record that was to be written stands in the journal?
    ///
    /// Then the next `append` closes its gate first.
    pub fn pending(&self) -> bool
        ensures { result ≡ self.now.journal.pending }
    {
        self.journal.pending()
    }
}
