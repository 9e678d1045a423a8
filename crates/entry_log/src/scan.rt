//! Reading the entries of a journal.
ghost use Rattle.std.specs.Prelude.{◌≡◌, ◌↔◌, ℕ, ◌+◌, ◌≤◌, ◌<◌, IsTrue, true, false, List, [], ◌∷◌, ◌++◌, IfOk, IfSome, IfNone, OnOk, IsErrOf};
ghost use Rattle.site_types.specs.declared.entry.Entry.{Entry as EntrySeen};
ghost use Rattle.disk_model.specs.Past.{seen};
ghost use Rattle.disk_model.specs.Faults.{Rose};
ghost use Rattle.journal.specs.Form.{journal_file as file_of};
ghost use Rattle.journal.specs.Scan.{HasHeader};
ghost use Rattle.byte_forms.specs.Entries.{IsEntry};
ghost use Rattle.entry_log.specs.Entries.{RecoversTo, IsBadAt};
ghost use Rattle.entry_log.specs.Scan.{HasReadEntries, IsEntryIn, log_of};

use crate::log::EntryLog;
use entry_codec::read_entry;
use journal::{Disk, Scan, ScanFault};
use site_types::{Entry, NoMemory};
use std::alloc::Global;

/// A scan of a journal's entries, from the first one on.
#[derive(Drop)]
pub struct EntryScan {
    scan: Scan,
    /// The number of the last entry.
    number: u64,
}

/// Begins to read the entries of journal `k`, which follow the one with this number. The file is
/// `Bad` at 0 if its header is not of the form.
pub fn recover<D: Disk>(disk: &mut D, k: u64, number: u64) -> Result<EntryScan, ScanFault>
    ensures honest { D.is_honest disk.old → D.is_honest disk.new }
    ensures ok { D.is_honest disk.old → IfOk result (λ scan.
        HasReadEntries scan (seen (D.past disk.old) (file_of k)) number []) }
    ensures bad { D.is_honest disk.old → (offset : ℕ) → IsErrOf result (ScanFault.Bad offset)
        → (offset ≡ 0) × (HasHeader k (seen (D.past disk.old) (file_of k)) → ⊥) }
    ensures memory { IsErrOf result ScanFault.Memory → ⊥ }
    ensures scan { IfOk result (λ scan. (scan.scan.k ≡ k)
        × (scan.scan.size ≡ D.size disk.new (file_of k)) × (scan.scan.ended ≡ false)) }
    ensures same { D.is_honest disk.old → D.past disk.new ≡ D.past disk.old }
    ensures sizes { (f : ℕ) → D.size disk.new f ≡ D.size disk.old f }
    ensures later { D.fault_count disk.old ≤ D.fault_count disk.new }
    ensures no_fault { OnOk result (D.fault_count disk.new ≡ D.fault_count disk.old) }
    ensures failed { IsErrOf result ScanFault.Failed
        → Rose (D.fault_count disk.old) (D.fault_count disk.new) }
{
    match journal::recover(disk, k) {
        Err(fault) => Err(fault),
        Ok(scan) => Ok(EntryScan { scan, number }),
    }
}

impl EntryScan {
    /// The next entry, or `None` at the first gate that is not 1.
    ///
    /// The file is `Bad` at the offset of an open gate after which no whole record stands, or one
    /// that is not an entry with the next number. The file is as long as it was when the scan began.
    pub fn next<D: Disk>(&mut self, alloc: Global, disk: &mut D) -> Result<Option<Entry>, ScanFault>
        requires { self.old.scan.size ≤ D.size disk.old (file_of self.old.scan.k) }
        ensures honest { D.is_honest disk.old → D.is_honest disk.new }
        ensures some { (base : ℕ) (entries : List EntrySeen) → D.is_honest disk.old
            → HasReadEntries self.old (seen (D.past disk.old) (file_of self.old.scan.k)) base entries
            → IfOk result (λ found. IfSome found (λ entry. HasReadEntries self.new
            (seen (D.past disk.old) (file_of self.old.scan.k)) base (entries ++ entry ∷ []))) }
        ensures none { (base : ℕ) (entries : List EntrySeen) → D.is_honest disk.old
            → HasReadEntries self.old (seen (D.past disk.old) (file_of self.old.scan.k)) base entries
            → IfOk result (λ found. IfNone found (RecoversTo self.old.scan.k base entries
            (seen (D.past disk.old) (file_of self.old.scan.k)))) }
        ensures bad { (base : ℕ) (entries : List EntrySeen) → D.is_honest disk.old
            → HasReadEntries self.old (seen (D.past disk.old) (file_of self.old.scan.k)) base entries
            → (offset : ℕ) → IsErrOf result (ScanFault.Bad offset)
            → IsBadAt self.old.scan.k base entries
            (seen (D.past disk.old) (file_of self.old.scan.k)) offset }
        ensures entry { IfOk result (λ found. IfSome found (λ entry. IsEntry entry)) }
        ensures same_file { (self.new.scan.k ≡ self.old.scan.k)
            × (self.new.scan.size ≡ self.old.scan.size) }
        ensures goes_on { IfOk result (λ found. IfSome found (λ _.
            self.old.scan.gate < self.new.scan.gate)) }
        ensures ended { IfOk result (λ found. IfNone found ((self.new.scan.ended ≡ true)
            × (self.new.scan.gate ≡ self.old.scan.gate) × (self.new.number ≡ self.old.number))) }
        ensures same { D.is_honest disk.old → D.past disk.new ≡ D.past disk.old }
        ensures sizes { (f : ℕ) → D.size disk.new f ≡ D.size disk.old f }
        ensures later { D.fault_count disk.old ≤ D.fault_count disk.new }
        ensures no_fault { OnOk result (D.fault_count disk.new ≡ D.fault_count disk.old) }
        ensures failed { IsErrOf result ScanFault.Failed
            → Rose (D.fault_count disk.old) (D.fault_count disk.new) }
    {
        let gate = self.scan.gate();
        match self.scan.next(alloc, disk) {
            Err(fault) => Err(fault),
            Ok(None) => Ok(None),
            Ok(Some(payload)) => match entry_in(alloc, payload.as_slice(), self.number) {
                Err(_) => Err(ScanFault::Memory),
                Ok(None) => Err(ScanFault::Bad(gate)),
                Ok(Some(entry)) => {
                    self.number = entry.number;
                    Ok(Some(entry))
                }
            },
        }
    }

    /// The offset of the next gate, which is before the end of the file.
    pub fn gate(&self) -> u64
        ensures gate { result ≡ self.now.scan.gate }
        ensures within { result < self.now.scan.size }
    {
        self.scan.gate()
    }

    /// The log, once `next` has given `None`.
    pub fn finish(self) -> EntryLog
        requires { self.scan.ended ≡ true }
        ensures { result ≡ log_of self }
    {
        EntryLog::at(self.scan.finish(), self.number)
    }
}

/// The entry whose form a payload is, if it is one, and if the entry has the number after this one.
fn entry_in(alloc: Global, payload: &[u8], number: u64) -> Result<Option<Entry>, NoMemory>
    ensures some { IfOk result (λ found. IfSome found (IsEntryIn payload.now (number + 1))) }
    ensures none { IfOk result (λ found. IfNone found
        ((entry : EntrySeen) → IsEntryIn payload.now (number + 1) entry → ⊥)) }
{
    match read_entry(alloc, payload) {
        Err(_) => Err(NoMemory),
        Ok(None) => Ok(None),
        Ok(Some((entry, size))) => {
            if size < payload.len() {
                return Ok(None);
            }
            if !is_next(number, entry.number) {
                return Ok(None);
            }
            Ok(Some(entry))
        }
    }
}

/// Is one number the one after another?
fn is_next(number: u64, next: u64) -> bool
    ensures { IsTrue result ↔ (next ≡ number + 1) }
{
    if next == 0 {
        return false;
    }
    next - 1 == number
}
