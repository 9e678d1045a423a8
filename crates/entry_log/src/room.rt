//! Whether a record has room in a log.
ghost use Rattle.std.specs.Prelude.{◌≡◌, ◌↔◌, ◌+◌, ◌≤◌, IsTrue};
ghost use Rattle.site_history.specs.Log as logs;

/// The most entries of a log: 2^21.
pub(crate) const MAX_ENTRIES: u64 = 2_097_152;

/// The most bytes that the forms of its entries have together: 2^30.
pub(crate) const MAX_ENTRY_BYTES: u64 = 1_073_741_824;

/// The most bytes of a journal's file: 2^40.
pub(crate) const MAX_JOURNAL: u64 = 1_099_511_627_776;

/// What a record takes beside its entry's form: its length and the next gate.
pub(crate) const RECORD_FRAME: u64 = 5;

/// Whether a record of so many bytes (`more`), its length and the next gate among them, has room in
/// a log with so many entries, bytes of their forms, and bytes of its journal.
pub fn log_room(entries: u64, bytes: u64, journal: u64, more: u64) -> bool
    ensures { result ≡ logs.log_room entries bytes journal more }
{
    if entries >= MAX_ENTRIES {
        return false;
    }
    if !fits(bytes, more, MAX_ENTRY_BYTES + RECORD_FRAME) {
        return false;
    }
    fits(journal, more, MAX_JOURNAL)
}

/// Whether an entry whose form has so many bytes (`size`) has room in a log with so many entries and
/// bytes of their forms, whose journal has its last gate at this offset.
pub(crate) fn room_for(entries: u64, bytes: u64, gate: u64, size: u64) -> bool
    ensures { result ≡ logs.log_room entries bytes (gate + 1) (size + logs.RECORD_FRAME) }
{
    if size > MAX_ENTRY_BYTES {
        return false;
    }
    if gate >= MAX_JOURNAL {
        return false;
    }
    log_room(entries, bytes, gate + 1, size + RECORD_FRAME)
}

/// Whether two numbers together are at most a third.
fn fits(held: u64, more: u64, most: u64) -> bool
    ensures { IsTrue result ↔ (held + more ≤ most) }
{
    if held > most {
        return false;
    }
    more <= most - held
}
