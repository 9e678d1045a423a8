//! Reading the entries of a journal, and doing them in memory.
ghost use Rattle.std.specs.Prelude.{◌≡◌, ℕ, List, ◌-◌, ◌≤◌, ◌<◌, IfOk, OnOk, IsErrOf, true};
ghost use Rattle.journal.specs.declared.fault.ScanFault.TheVariants as scans;
ghost use Rattle.disk_model.specs.Past.{seen};
ghost use Rattle.disk_model.specs.Faults.{Rose};
ghost use Rattle.journal.specs.Form.{journal_file as file_of};
ghost use Rattle.site_types.specs.declared.entry.Entry.{Entry};
ghost use Rattle.site_model.specs.World.{World};
ghost use Rattle.site_core.specs.Standing.{IsReady};
ghost use Rattle.entry_log.specs.Scan.{HasReadEntries};
ghost use Rattle.site_store.specs.Recovery.{Leads};
ghost use Rattle.site_store.specs.Opening.{start, Replays, ReplaysAll};

use entry_log::{Disk, EntryScan, ScanFault};
use site_core::Core;
use site_part::Fault;
use std::alloc::Global;

/// Reads the entries that a scan has not read, and does each of them in memory.
///
/// The file is `Bad` at the first gate that is open with no entry after it that has the form and the
/// next number and that is accepted. It costs what reading and doing each entry costs.
pub(crate) fn replay<D: Disk>(
    alloc: Global,
    disk: &mut D,
    scan: &mut EntryScan,
    core: &mut Core,
) -> Result<(), ScanFault>
    requires ready { (world : World) × (entries : List Entry) × IsReady core.old world
        × Leads start.world entries world }
    requires whole { scan.old.scan.size ≤ D.size disk.old (file_of scan.old.scan.k) }
    ensures honest { D.is_honest disk.old → D.is_honest disk.new }
    ensures replays { (world : World) (entries : List Entry) → IsReady core.old world
        → Leads start.world entries world → ReplaysAll (D.is_honest disk.old
        × HasReadEntries scan.old (seen (D.past disk.old) (file_of scan.old.scan.k)) start.number
        entries) scan.old.scan.k (seen (D.past disk.old) (file_of scan.old.scan.k)) start scan.new
        core.new result }
    ensures same_file { (scan.new.scan.k ≡ scan.old.scan.k)
        × (scan.new.scan.size ≡ scan.old.scan.size) }
    ensures same { D.is_honest disk.old → D.past disk.new ≡ D.past disk.old }
    ensures sizes { (f : ℕ) → D.size disk.new f ≡ D.size disk.old f }
    ensures later { D.fault_count disk.old ≤ D.fault_count disk.new }
    ensures no_fault { OnOk result (D.fault_count disk.new ≡ D.fault_count disk.old) }
    ensures failed { IsErrOf result scans.Failed
        → Rose (D.fault_count disk.old) (D.fault_count disk.new) }
{
    'entries: while replay_entry(alloc, disk, scan, core)? {}
    Ok(())
}

/// Reads the next entry, and does it in memory. False is the answer at the first gate that is not 1.
fn replay_entry<D: Disk>(
    alloc: Global,
    disk: &mut D,
    scan: &mut EntryScan,
    core: &mut Core,
) -> Result<bool, ScanFault>
    requires ready { (world : World) × IsReady core.old world }
    requires whole { scan.old.scan.size ≤ D.size disk.old (file_of scan.old.scan.k) }
    ensures honest { D.is_honest disk.old → D.is_honest disk.new }
    ensures replays { (world : World) (entries : List Entry) → IsReady core.old world
        → Leads start.world entries world → Replays (D.is_honest disk.old × HasReadEntries scan.old
        (seen (D.past disk.old) (file_of scan.old.scan.k)) start.number entries) scan.old.scan.k
        (seen (D.past disk.old) (file_of scan.old.scan.k)) start scan.new core.new result }
    ensures same_file { (scan.new.scan.k ≡ scan.old.scan.k)
        × (scan.new.scan.size ≡ scan.old.scan.size) }
    ensures less { IfOk result (λ more. more ≡ true
        → scan.new.scan.size - scan.new.scan.gate < scan.old.scan.size - scan.old.scan.gate) }
    ensures same { D.is_honest disk.old → D.past disk.new ≡ D.past disk.old }
    ensures sizes { (f : ℕ) → D.size disk.new f ≡ D.size disk.old f }
    ensures later { D.fault_count disk.old ≤ D.fault_count disk.new }
    ensures no_fault { OnOk result (D.fault_count disk.new ≡ D.fault_count disk.old) }
    ensures failed { IsErrOf result scans.Failed
        → Rose (D.fault_count disk.old) (D.fault_count disk.new) }
{
    let gate = scan.gate();
    match scan.next(alloc, disk) {
        Err(fault) => Err(fault),
        Ok(None) => Ok(false),
        Ok(Some(entry)) => match core.prepare(alloc, &entry.command, entry.caller, entry.moment) {
            Err(Fault::Refused(_)) => Err(ScanFault::Bad(gate)),
            Err(Fault::Memory) => Err(ScanFault::Memory),
            Ok(plan) => {
                core.commit(plan);
                Ok(true)
            }
        },
    }
}
