//! Opening a store.
ghost use Rattle.std.specs.Prelude.{◌≡◌, ℕ, ◌≤◌, List, [], length, IfOk, IfErr, OnOk, OnErr, IsErrOf};
ghost use Rattle.disk_model.specs.Past.{seen};
ghost use Rattle.disk_model.specs.Images.{EachHolds};
ghost use Rattle.disk_model.specs.Faults.{Rose};
ghost use Rattle.journal.specs.declared.fault.ScanFault.TheVariants as scans;
ghost use Rattle.site_core.specs.Standing.{StandsFor};
ghost use Rattle.site_store.specs.declared.fault.OpenFault.TheVariants as faults;
ghost use Rattle.site_store.specs.Faults.{open_fault};
ghost use Rattle.site_store.specs.Opening.{start, IsBadAt, IsOpened, KeepsFiles};

use crate::fault::OpenFault;
use crate::replay::replay;
use crate::store::Store;
use entry_log::{Disk, EntryLog, ScanFault, create, recover};
use site_core::Core;
use site_types::Digest;
use std::alloc::Global;

/// The SHA-256 digest of the token `abc`, which is user 1's (FIPS 180-4, the first of its examples).
pub const ABC_DIGEST: [u8; 32] = [
    0xba, 0x78, 0x16, 0xbf, 0x8f, 0x01, 0xcf, 0xea, 0x41, 0x41, 0x40, 0xde, 0x5d, 0xae, 0x22, 0x23,
    0xb0, 0x03, 0x61, 0xa3, 0x96, 0x17, 0x7a, 0x9c, 0xb4, 0x10, 0xff, 0x61, 0xf2, 0x00, 0x15, 0xad,
];

/// The file of journal 1.
const JOURNAL_FILE: u8 = 3;

impl<D: Disk> Store<D> {
    /// Opens the site on a disk. If file 3 is empty, its journal is created there, for a new site;
    /// else the site is recovered from it, entry by entry.
    ///
    /// It is `BadStore` of file 3 exactly if that has no header, or at the first open gate after which
    /// no entry stands that has the form and the next number and that is accepted. A file 3 that is not
    /// empty is brought to the disk, and nothing is written. It costs what reading and doing each
    /// entry costs.
    pub fn open(alloc: Global, disk: D) -> Result<Store<D>, (OpenFault, D)>
        ensures ok { IfOk result (λ store. IsOpened (D.is_honest disk)
            (seen (D.past disk) 3) store.core store.log (D.size store.disk) (D.past store.disk)) }
        ensures bad { D.is_honest disk → IfErr result (λ failed. (file offset : ℕ)
            → failed.0 ≡ faults.BadStore file offset
            → (file ≡ 3) × (1 ≤ length (seen (D.past disk) 3))
            × IsBadAt 1 start (seen (D.past disk) 3) offset) }
        ensures honest { D.is_honest disk → IfOk result (λ store. D.is_honest store.disk) }
        ensures still_honest { D.is_honest disk → IfErr result (λ failed. D.is_honest failed.1) }
        ensures files { D.is_honest disk → 1 ≤ length (seen (D.past disk) 3)
            → IfOk result (λ store. KeepsFiles (D.past disk) (D.past store.disk)) }
        ensures same_files { D.is_honest disk → 1 ≤ length (seen (D.past disk) 3)
            → IfErr result (λ failed. KeepsFiles (D.past disk) (D.past failed.1)) }
        ensures no_fault { IfOk result (λ store.
            D.fault_count store.disk ≡ D.fault_count disk) }
        ensures failed { IfErr result (λ failed. failed.0 ≡ faults.Disk
            → Rose (D.fault_count disk) (D.fault_count failed.1)) }
    {
        let mut disk = disk;
        let Ok(mut core) = Core::new(alloc, &Digest::new(ABC_DIGEST)) else {
            return Err((OpenFault::Memory, disk));
        };
        match open_log(alloc, &mut disk, &mut core) {
            Ok(log) => Ok(Store { disk, log, core }),
            Err(fault) => Err((fault, disk)),
        }
    }
}

/// The log of the journal in file 3, after whose entries a new site in memory is brought.
fn open_log<D: Disk>(alloc: Global, disk: &mut D, core: &mut Core) -> Result<EntryLog, OpenFault>
    requires { StandsFor core.old start.world }
    ensures ok { IfOk result (λ log. IsOpened (D.is_honest disk.old)
        (seen (D.past disk.old) 3) core.new log (D.size disk.new) (D.past disk.new)) }
    ensures bad { D.is_honest disk.old → (file offset : ℕ)
        → IsErrOf result (faults.BadStore file offset)
        → (file ≡ 3) × (1 ≤ length (seen (D.past disk.old) 3))
        × IsBadAt 1 start (seen (D.past disk.old) 3) offset }
    ensures honest { D.is_honest disk.old → D.is_honest disk.new }
    ensures files { D.is_honest disk.old → 1 ≤ length (seen (D.past disk.old) 3)
        → KeepsFiles (D.past disk.old) (D.past disk.new) }
    ensures no_fault { OnOk result (D.fault_count disk.new ≡ D.fault_count disk.old) }
    ensures failed { IsErrOf result faults.Disk
        → Rose (D.fault_count disk.old) (D.fault_count disk.new) }
{
    match disk.len(JOURNAL_FILE) {
        Err(_) => Err(OpenFault::Disk),
        Ok(0) => create_log(disk, core),
        Ok(_) => recover_log(alloc, disk, core),
    }
}

/// The log of a journal that is created in file 3, which is empty, for a new site in memory.
fn create_log<D: Disk>(disk: &mut D, core: &Core) -> Result<EntryLog, OpenFault>
    requires { StandsFor core.now start.world }
    ensures ok { (bytes : List ℕ) → (D.is_honest disk.old → bytes ≡ [])
        → IfOk result (λ log. IsOpened (D.is_honest disk.old) bytes core.now log
        (D.size disk.new) (D.past disk.new)) }
    ensures err { OnErr result (IsErrOf result faults.Disk) }
    ensures honest { D.is_honest disk.old → D.is_honest disk.new }
    ensures no_fault { OnOk result (D.fault_count disk.new ≡ D.fault_count disk.old) }
    ensures failed { OnErr result (Rose (D.fault_count disk.old) (D.fault_count disk.new)) }
{
    let _core = core;
    match create(disk, 1, 0) {
        Err(_) => Err(OpenFault::Disk),
        Ok(log) => Ok(log),
    }
}

/// The log of the journal in file 3, which is brought to the disk first.
fn recover_log<D: Disk>(alloc: Global, disk: &mut D, core: &mut Core) -> Result<EntryLog, OpenFault>
    requires { StandsFor core.old start.world }
    ensures ok { IfOk result (λ log. IsOpened (D.is_honest disk.old)
        (seen (D.past disk.old) 3) core.new log (D.size disk.new) (D.past disk.new)) }
    ensures bad { D.is_honest disk.old → (file offset : ℕ)
        → IsErrOf result (faults.BadStore file offset)
        → (file ≡ 3) × IsBadAt 1 start (seen (D.past disk.old) 3) offset }
    ensures honest { D.is_honest disk.old → D.is_honest disk.new }
    ensures files { D.is_honest disk.old → KeepsFiles (D.past disk.old) (D.past disk.new) }
    ensures no_fault { OnOk result (D.fault_count disk.new ≡ D.fault_count disk.old) }
    ensures failed { IsErrOf result faults.Disk
        → Rose (D.fault_count disk.old) (D.fault_count disk.new) }
{
    match disk.sync(JOURNAL_FILE) {
        Err(_) => Err(OpenFault::Disk),
        Ok(()) => match read_log(alloc, disk, core) {
            Err(fault) => Err(fault_told(fault)),
            Ok(log) => Ok(log),
        },
    }
}

/// The log of the journal in file 3, whose entries are done in memory.
fn read_log<D: Disk>(alloc: Global, disk: &mut D, core: &mut Core) -> Result<EntryLog, ScanFault>
    requires { StandsFor core.old start.world }
    ensures ok { IfOk result (λ log. IsOpened (D.is_honest disk.old × EachHolds (D.past disk.old) 3
        (λ held. held ≡ seen (D.past disk.old) 3)) (seen (D.past disk.old) 3) core.new log
        (D.size disk.new) (D.past disk.new)) }
    ensures bad { (offset : ℕ) → IsErrOf result (scans.Bad offset) → D.is_honest disk.old
        → IsBadAt 1 start (seen (D.past disk.old) 3) offset }
    ensures honest { D.is_honest disk.old → D.is_honest disk.new }
    ensures same { D.is_honest disk.old → D.past disk.new ≡ D.past disk.old }
    ensures later { D.fault_count disk.old ≤ D.fault_count disk.new }
    ensures no_fault { OnOk result (D.fault_count disk.new ≡ D.fault_count disk.old) }
    ensures failed { IsErrOf result scans.Failed
        → Rose (D.fault_count disk.old) (D.fault_count disk.new) }
{
    match recover(disk, 1, 0) {
        Err(fault) => Err(fault),
        Ok(mut scan) => match replay(alloc, disk, &mut scan, core) {
            Err(fault) => Err(fault),
            Ok(()) => {
                // The file reaches behind the last gate, which this says.
                let _gate = scan.gate();
                Ok(scan.finish())
            }
        },
    }
}

/// Why a store could not be opened whose journal could not be read.
fn fault_told(fault: ScanFault) -> OpenFault
    ensures { result ≡ open_fault fault }
{
    match fault {
        ScanFault::Bad(offset) => OpenFault::BadStore {
            file: JOURNAL_FILE,
            offset,
        },
        ScanFault::Failed => OpenFault::Disk,
        ScanFault::Memory => OpenFault::Memory,
    }
}
