//! Reading a journal.
ghost use Rattle.std.specs.Prelude.{◌≡◌, ◌≢◌, ℕ, ◌+◌, ◌-◌, ◌<◌, ◌≤◌, IsTrue, true, false, List, [], ◌∷◌, ◌++◌, length, min, take, drop, IfOk, IfSome, IfNone, OnOk, OnErr, IsErrOf};
ghost use Rattle.disk_model.specs.Past.{seen};
ghost use Rattle.disk_model.specs.Faults.{Rose};
ghost use Rattle.journal.specs.Form.{journal_file as file_of, Recovers};
ghost use Rattle.journal.specs.Scan.{HasRead, HasHeader, IsCutShort, journal_of, IsPart};

use crate::fault::ScanFault;
use crate::form::{HEADER_SIZE, is_header, journal_file};
use crate::head::{Head, read_head};
use crate::journal::Journal;
use crate::payload::Bytes;
use disk_model::Disk;
use std::alloc::Global;
use std::marker::Model;

/// How many bytes are read at a time, if a record does not have more.
const BLOCK: usize = 65_536;

/// A scan of a journal's file, from its first record on.
#[derive(Drop)]
pub struct Scan {
    k: u64,
    gate: u64,
    size: u64,
    ended: bool,
    at: u64,
    block: Option<Vec<u8>>,
}

impl Model for Scan {
    ghost use Rattle.std.specs.Prelude.{◌<◌, ◌≤◌, ◌+◌, length};
    ghost use Rattle.journal.specs.Scan.{ScanValue, bytes_in};

    ghost Value = { ScanValue };

    ghost view = { λ s. record {
      k = s.k;
      gate = s.gate;
      size = s.size;
      ended = s.ended;
      at = s.at;
      block = bytes_in s.block;
    } };

    ghost invariant = { λ s. s.gate < s.size };
}

/// Begins to read journal `k` on a disk. The file is `Bad` at 0 if its header is not of the form.
pub fn recover<D: Disk>(disk: &mut D, k: u64) -> Result<Scan, ScanFault>
    ensures honest { D.is_honest disk.old → D.is_honest disk.new }
    ensures ok { D.is_honest disk.old → IfOk result (λ scan.
        HasRead scan (seen (D.past disk.old) (file_of k)) []) }
    ensures bad { D.is_honest disk.old → (offset : ℕ) → IsErrOf result (ScanFault.Bad offset)
        → (offset ≡ 0) × (HasHeader k (seen (D.past disk.old) (file_of k)) → ⊥) }
    ensures memory { IsErrOf result ScanFault.Memory → ⊥ }
    ensures scan { IfOk result (λ scan. (scan.k ≡ k)
        × (scan.size ≡ D.size disk.new (file_of k)) × (scan.ended ≡ false)) }
    ensures same { D.is_honest disk.old → D.past disk.new ≡ D.past disk.old }
    ensures sizes { (f : ℕ) → D.size disk.new f ≡ D.size disk.old f }
    ensures later { D.fault_count disk.old ≤ D.fault_count disk.new }
    ensures no_fault { OnOk result (D.fault_count disk.new ≡ D.fault_count disk.old) }
    ensures failed { IsErrOf result ScanFault.Failed
        → Rose (D.fault_count disk.old) (D.fault_count disk.new) }
{
    let file = journal_file(k);
    let size = disk.len(file)?;
    if size < HEADER_SIZE {
        return Err(ScanFault::Bad(0));
    }
    let mut head = [0; 16];
    disk.read_at(file, 0, &mut head)?;
    if !is_header(k, &head) {
        return Err(ScanFault::Bad(0));
    }
    Ok(Scan {
        k,
        gate: HEADER_SIZE - 1,
        size,
        ended: false,
        at: 0,
        block: None,
    })
}

impl Scan {
    /// The payload of the next record, or `None` at the first gate that is not 1.
    ///
    /// The file is `Bad` at the offset of a gate that is 1 with no whole record after it. Records
    /// are read from the disk in blocks. The file is as long as it was when the scan began.
    pub fn next<D: Disk>(&mut self, alloc: Global, disk: &mut D) -> Result<Option<Bytes>, ScanFault>
        requires { self.old.size ≤ D.size disk.old (file_of self.old.k) }
        ensures honest { D.is_honest disk.old → D.is_honest disk.new }
        ensures some { (payloads : List (List ℕ)) → D.is_honest disk.old
            → HasRead self.old (seen (D.past disk.old) (file_of self.old.k)) payloads
            → IfOk result (λ found. IfSome found (λ payload. HasRead self.new
            (seen (D.past disk.old) (file_of self.old.k)) (payloads ++ payload ∷ []))) }
        ensures none { (payloads : List (List ℕ)) → D.is_honest disk.old
            → HasRead self.old (seen (D.past disk.old) (file_of self.old.k)) payloads
            → IfOk result (λ found. IfNone found (Recovers self.old.k payloads
            (seen (D.past disk.old) (file_of self.old.k)))) }
        ensures bad { (payloads : List (List ℕ)) → D.is_honest disk.old
            → HasRead self.old (seen (D.past disk.old) (file_of self.old.k)) payloads
            → (offset : ℕ) → IsErrOf result (ScanFault.Bad offset) → IsCutShort self.old.k payloads
            (seen (D.past disk.old) (file_of self.old.k)) offset }
        ensures same_file { (self.new.k ≡ self.old.k) × (self.new.size ≡ self.old.size) }
        ensures ended { IfOk result (λ found. IfNone found
            ((self.new.ended ≡ true) × (self.new.gate ≡ self.old.gate))) }
        ensures goes_on { IfOk result (λ found. IfSome found (λ payload.
            self.new.gate ≡ self.old.gate + 5 + length payload)) }
        ensures same { D.is_honest disk.old → D.past disk.new ≡ D.past disk.old }
        ensures sizes { (f : ℕ) → D.size disk.new f ≡ D.size disk.old f }
        ensures later { D.fault_count disk.old ≤ D.fault_count disk.new }
        ensures no_fault { OnOk result (D.fault_count disk.new ≡ D.fault_count disk.old) }
        ensures failed { IsErrOf result ScanFault.Failed
            → Rose (D.fault_count disk.old) (D.fault_count disk.new) }
    {
        let left = self.left();
        self.reach(alloc, disk, left.min(5))?;
        match read_head(self.held(), left) {
            Head::Closed => {
                self.end();
                Ok(None)
            }
            Head::Short => Err(ScanFault::Bad(self.gate())),
            Head::Open(count) => {
                self.reach(alloc, disk, u64::from(count) + 6)?;
                let payload = Bytes::copy(alloc, &self.held()[5..5 + count as usize])?;
                self.pass(u64::from(count) + 5);
                Ok(Some(payload))
            }
        }
    }

    /// The journal, once `next` has given `None`.
    pub fn finish(self) -> Journal
        requires { self.ended ≡ true }
        ensures { result ≡ journal_of self }
    {
        Journal::at(self.k, self.gate)
    }

    /// The offset of the next gate, which is before the end of the file.
    pub fn gate(&self) -> u64
        ensures gate { result ≡ self.now.gate }
        ensures within { result < self.now.size }
    {
        self.gate
    }

    /// How many bytes there are from the next gate to the end of the file.
    fn left(&self) -> u64
        ensures left { result ≡ self.now.size - self.now.gate }
        ensures some { 0 < result }
    {
        self.size - self.gate
    }

    /// A gate was found that is not 1.
    fn end(&mut self)
        ensures { self.new ≡ record self.old { ended = true } }
    {
        self.ended = true;
    }

    /// Goes on to the next gate.
    fn pass(&mut self, count: u64)
        requires { self.old.gate + count < self.old.size }
        ensures { self.new ≡ record self.old { gate = self.old.gate + count } }
    {
        self.gate += count;
    }

    /// The bytes that it holds from the next gate on.
    fn held(&self) -> &[u8]
        requires { self.now.at ≤ self.now.gate }
        ensures { result.now ≡ drop (self.now.gate - self.now.at) self.now.block }
    {
        match &self.block {
            Some(block) => {
                let start = (self.gate - self.at) as usize;
                block.as_slice().get(start..).unwrap_or(&[])
            }
            None => &[],
        }
    }

    /// Holds so many bytes from the next gate on, and reads a block if it does not.
    fn reach<D: Disk>(&mut self, alloc: Global, disk: &mut D, count: u64) -> Result<(), ScanFault>
        requires whole { self.old.size ≤ D.size disk.old (file_of self.old.k) }
        requires within { self.old.gate + count ≤ self.old.size }
        ensures honest { D.is_honest disk.old → D.is_honest disk.new }
        ensures kept { self.new ≡ record self.old { at = self.new.at; block = self.new.block } }
        ensures reaches { OnOk result ((self.new.at ≤ self.old.gate)
            × (self.old.gate + count ≤ self.new.at + length self.new.block)) }
        ensures part { D.is_honest disk.old
            → IsPart self.old.block self.old.at (seen (D.past disk.old) (file_of self.old.k))
            → IsPart self.new.block self.new.at (seen (D.past disk.old) (file_of self.old.k)) }
        ensures same { D.is_honest disk.old → D.past disk.new ≡ D.past disk.old }
        ensures sizes { (f : ℕ) → D.size disk.new f ≡ D.size disk.old f }
        ensures later { D.fault_count disk.old ≤ D.fault_count disk.new }
        ensures no_fault { OnOk result (D.fault_count disk.new ≡ D.fault_count disk.old) }
        ensures not_bad { (offset : ℕ) → IsErrOf result (ScanFault.Bad offset) → ⊥ }
        ensures failed { IsErrOf result ScanFault.Failed
            → Rose (D.fault_count disk.old) (D.fault_count disk.new) }
    {
        if self.holds(count) {
            return Ok(());
        }
        let left = self.size - self.gate;
        let mut block = zeros(alloc, count.max(BLOCK as u64).min(left))?;
        disk.read_at(journal_file(self.k), self.gate, block.as_mut_slice())?;
        self.at = self.gate;
        self.block = Some(block);
        Ok(())
    }

    /// Does it hold so many bytes from the next gate on?
    fn holds(&self, count: u64) -> bool
        ensures { IsTrue result → (self.now.at ≤ self.now.gate)
            × (self.now.gate + count ≤ self.now.at + length self.now.block) }
    {
        match &self.block {
            Some(block) => {
                let length = block.len() as u64;
                self.at <= self.gate && count <= length && self.gate - self.at <= length - count
            }
            None => false,
        }
    }
}

/// So many zeros.
fn zeros(alloc: Global, count: u64) -> Result<Vec<u8>, ScanFault>
    ensures length { IfOk result (λ zeros. length zeros.items ≡ count) }
    ensures bad { (offset : ℕ) → IsErrOf result (ScanFault.Bad offset) → ⊥ }
    ensures failed { IsErrOf result ScanFault.Failed → ⊥ }
{
    match vec![in alloc; 0; count as usize] {
        Ok(zeros) => Ok(zeros),
        Err(_) => Err(ScanFault::Memory),
    }
}
