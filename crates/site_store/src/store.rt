//! A site whose entries are on a disk.
ghost use Rattle.std.specs.Prelude.{◌≡◌, ℕ, ◌+◌, ◌≤◌, List, [], ◌∷◌, ◌++◌, Option, None, OnOk, OnErr, IfOk, IsErrOf, false};
ghost use Rattle.disk_model.specs.Images.{LeavesOnly};
ghost use Rattle.disk_model.specs.OneFile.{KeepsOthers, InFile};
ghost use Rattle.disk_model.specs.Faults.{Rose};
ghost use Rattle.site_types.specs.declared.command.Command.{Command as AnyCommand};
ghost use Rattle.site_types.specs.declared.entry.Entry.{Entry as AnyEntry};
ghost use Rattle.site_types.specs.declared.refusal.Refusal.TheVariants.{LogFull};
ghost use Rattle.site_types.specs.declared.refusal.Refusal.{Refusal as AnyRefusal};
ghost use Rattle.byte_forms.specs.Commands.{KeepsForm};
ghost use Rattle.site_model.specs.World.{World};
ghost use Rattle.site_model.specs.Laws.{FitsCommand};
ghost use Rattle.site_core.specs.Standing as cores;
ghost use Rattle.journal.specs.Form.{journal_file as file_of};
ghost use Rattle.entry_log.specs.Entries.{RecoversAmong as EntriesAmong};
ghost use Rattle.entry_log.specs.Log.{MayFollow, entry_logging, log_in, Keeps, KeepsAfterFault};
ghost use Rattle.site_store.specs.declared.fault.CallFault.TheVariants as faults;
ghost use Rattle.site_store.specs.History.{SiteHistory, next_entry};
ghost use Rattle.site_store.specs.Recovery.{Stage, IsKept, RecoversAmong};
ghost use Rattle.site_store.specs.Standing.{IsAt};
ghost use Rattle.site_store.specs.Running.{Answers, history_after, IsKeptAfter};

use crate::fault::CallFault;
use entry_log::{Disk, Draft, DraftFault, EntryLog};
use site_core::Core;
use site_part::Plan;
use site_types::{Command, Entry, Moment, Refusal, Reply, UserId};
use std::alloc::Global;

/// A command that was accepted.
#[derive(Debug, Drop)]
pub struct Accepted {
    /// The number of its entry.
    pub number: u64,
    /// What it is answered.
    pub reply: Reply,
}

/// The site of one caller: what is in memory, and its entries on a disk.
#[derive(Drop)]
pub struct Store<D> {
    pub(crate) disk: D,
    pub(crate) log: EntryLog,
    pub(crate) core: Core,
}

impl<D: Disk> Store<D> {
    /// Runs a command by a user at a moment. After `Ok` it is on the disk.
    ///
    /// All memory is taken before anything is written, and a command that a rule refuses does no
    /// disk work. With no entry in doubt it costs two writes and two syncs; else the gate of that
    /// entry is closed first, which costs one of each more. After `Disk` the site is as it was, and
    /// at most one entry is in doubt: this one, or the one that was in doubt before.
    pub fn run(
        &mut self,
        alloc: Global,
        caller: UserId,
        now: Moment,
        command: Command,
    ) -> Result<Accepted, CallFault>
        requires ready { (history : SiteHistory)
            × IsAt self.old.core self.old.log (D.size self.old.disk) history }
        requires fits { FitsCommand command }
        requires form { KeepsForm command }
        ensures answers { (history : SiteHistory)
            → IsAt self.old.core self.old.log (D.size self.old.disk) history
            → Answers history (next_entry self.old.log.number caller now command)
            (D.fault_count self.old.disk) (D.fault_count self.new.disk) result }
        ensures at { (history : SiteHistory)
            → IsAt self.old.core self.old.log (D.size self.old.disk) history
            → IsAt self.new.core self.new.log (D.size self.new.disk)
            (history_after history (next_entry self.old.log.number caller now command) result) }
        ensures kept { (history : SiteHistory) (from : Stage) (doubt : Option AnyEntry)
            → D.is_honest self.old.disk
            → IsAt self.old.core self.old.log (D.size self.old.disk) history
            → IsKept self.old.log (D.past self.old.disk) from history doubt
            → IsKeptAfter self.new.log (D.past self.new.disk) from history doubt
            (next_entry self.old.log.number caller now command) result }
        // A crash at any moment leaves the history, with this entry, with the one that was in doubt,
        // or without.
        ensures any_moment { (history : SiteHistory) (from : Stage) (doubt : Option AnyEntry)
            → D.is_honest self.old.disk
            → IsAt self.old.core self.old.log (D.size self.old.disk) history
            → IsKept self.old.log (D.past self.old.disk) from history doubt
            → LeavesOnly (D.past self.old.disk) (D.past self.new.disk)
            (InFile (D.past self.old.disk) (file_of self.old.log.journal.k)
            (RecoversAmong self.old.log.journal.k from history doubt
            (next_entry self.old.log.number caller now command))) }
        ensures others { D.is_honest self.old.disk → KeepsOthers (D.past self.old.disk)
            (D.past self.new.disk) (file_of self.old.log.journal.k) }
        ensures honest { D.is_honest self.old.disk → D.is_honest self.new.disk }
        ensures k { self.new.log.journal.k ≡ self.old.log.journal.k }
        ensures refused { (refusal : AnyRefusal) → IsErrOf result (faults.Refused refusal)
            → (self.new.disk ≡ self.old.disk) × (self.new.log ≡ self.old.log) }
        ensures memory { IsErrOf result faults.Memory
            → (self.new.disk ≡ self.old.disk) × (self.new.log ≡ self.old.log) }
        ensures no_fault { OnOk result
            (D.fault_count self.new.disk ≡ D.fault_count self.old.disk) }
    {
        match self.core.prepare(alloc, &command, caller, now) {
            Err(fault) => Err(fault.into()),
            Ok(plan) => match draft_next(&self.log, alloc, caller, now, command) {
                Err(fault) => Err(fault),
                Ok(draft) => self.keep(plan, &draft),
            },
        }
    }

    /// The number k of the journal that is appended to.
    pub fn k(&self) -> u64
        ensures { result ≡ self.now.log.journal.k }
    {
        self.log.k()
    }

    /// The number of the last entry.
    pub fn number(&self) -> u64
        ensures { result ≡ self.now.log.number }
    {
        self.log.number()
    }

    /// The site in memory.
    pub fn core(&self) -> &Core
        ensures { result.now ≡ self.now.core }
    {
        &self.core
    }

    /// The disk. An entry in doubt stays so.
    pub fn into_disk(self) -> D
        ensures { result ≡ self.disk }
    {
        self.disk
    }

    /// Writes an entry to the disk, and does what was planned for it once it is there.
    fn keep(&mut self, plan: Plan, draft: &Draft) -> Result<Accepted, CallFault>
        requires plan { (world : World) × (now : ℕ) × (caller : ℕ) × (command : AnyCommand)
            × cores.HasPlan self.old.core world now caller command plan }
        requires follows { MayFollow self.old.log draft.now }
        requires reaches { self.old.log.journal.gate + 1
            ≤ D.size self.old.disk (file_of self.old.log.journal.k) }
        ensures accepted { IfOk result (λ accepted.
            (accepted.number ≡ self.old.log.number + 1) × (accepted.reply ≡ plan.reply)) }
        ensures stands { (world : World) (now caller : ℕ) (command : AnyCommand)
            (has : cores.HasPlan self.old.core world now caller command plan)
            → OnOk result (cores.StandsFor self.new.core has.after) }
        ensures same { OnErr result (self.new.core ≡ self.old.core) }
        ensures failed { OnErr result (IsErrOf result (faults.Disk
            (D.fault_count self.old.disk) (D.fault_count self.new.disk))
            × Rose (D.fault_count self.old.disk) (D.fault_count self.new.disk)) }
        ensures no_fault { OnOk result
            (D.fault_count self.new.disk ≡ D.fault_count self.old.disk) }
        ensures ok { (base : ℕ) (entries : List AnyEntry) (doubt : Option AnyEntry)
            → D.is_honest self.old.disk
            → Keeps self.old.log (D.past self.old.disk) base entries doubt
            → OnOk result (Keeps self.new.log (D.past self.new.disk) base
            (entries ++ draft.now.entry ∷ []) None) }
        ensures err { (base : ℕ) (entries : List AnyEntry) (doubt : Option AnyEntry)
            → D.is_honest self.old.disk
            → Keeps self.old.log (D.past self.old.disk) base entries doubt
            → OnErr result (KeepsAfterFault self.new.log (D.past self.new.disk) base entries doubt
            draft.now.entry) }
        ensures any_moment { (base : ℕ) (entries : List AnyEntry) (doubt : Option AnyEntry)
            → D.is_honest self.old.disk
            → Keeps self.old.log (D.past self.old.disk) base entries doubt
            → LeavesOnly (D.past self.old.disk) (D.past self.new.disk)
            (InFile (D.past self.old.disk) (file_of self.old.log.journal.k)
            (EntriesAmong self.old.log.journal.k base entries doubt draft.now.entry)) }
        ensures others { D.is_honest self.old.disk → KeepsOthers (D.past self.old.disk)
            (D.past self.new.disk) (file_of self.old.log.journal.k) }
        ensures honest { D.is_honest self.old.disk → D.is_honest self.new.disk }
        ensures k { self.new.log.journal.k ≡ self.old.log.journal.k }
        ensures number { OnOk result (self.new.log.number ≡ self.old.log.number + 1) }
        ensures log { OnOk result (log_in self.new.log ≡
            entry_logging.logged (log_in self.old.log) draft.now.entry) }
        ensures number_kept { OnErr result (self.new.log.number ≡ self.old.log.number) }
        ensures log_kept { OnErr result (log_in self.new.log ≡ log_in self.old.log) }
        ensures reaches { self.new.log.journal.gate + 1
            ≤ D.size self.new.disk (file_of self.old.log.journal.k) }
    {
        let before = self.disk.faults();
        match self.log.append(&mut self.disk, draft) {
            Err(_) => Err(CallFault::Disk {
                before,
                after: self.disk.faults(),
            }),
            Ok(()) => {
                let number = self.log.number();
                let reply = self.core.commit(plan);
                Ok(Accepted { number, reply })
            }
        }
    }
}

/// Readies the entry of a command after the last one of a log, or says that the log is full.
/// `Memory` may come in its place.
fn draft_next(
    log: &EntryLog,
    alloc: Global,
    caller: UserId,
    now: Moment,
    command: Command,
) -> Result<Draft, CallFault>
    requires { KeepsForm command }
    ensures ok { IfOk result (λ draft. (draft.entry ≡ next_entry log.now.number caller now command)
        × MayFollow log.now draft) }
    ensures full { (refusal : AnyRefusal) → IsErrOf result (faults.Refused refusal)
        → (refusal ≡ LogFull) × (entry_logging.has_room log.now.number (log_in log.now)
        (next_entry log.now.number caller now command) ≡ false) }
    ensures disk { (before after : ℕ) → IsErrOf result (faults.Disk before after) → ⊥ }
{
    let Some(number) = log.next_number() else {
        return Err(CallFault::Refused(Refusal::LogFull));
    };
    let entry = Entry {
        number,
        moment: now,
        caller,
        command,
    };
    match log.draft(alloc, entry) {
        Ok(draft) => Ok(draft),
        Err(DraftFault::Full) => Err(CallFault::Refused(Refusal::LogFull)),
        Err(DraftFault::Memory) => Err(CallFault::Memory),
    }
}
