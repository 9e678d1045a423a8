//! Laws of entries in a file. Nothing runs.
ghost use Rattle.entry_log.specs.Laws.{RecoversOnce, RecoversSoundly, KeptRecovers, RecoveredIsKept};

/// A file recovers to one list of entries.
pub fn recovers_once()
    ensures { RecoversOnce }
{}

/// A file that recovers is bad nowhere.
pub fn recovers_soundly()
    ensures { RecoversSoundly }
{}

/// Whatever a crash leaves of what a log keeps recovers to its entries, with the one that is in
/// doubt or without.
pub fn kept_recovers()
    ensures { KeptRecovers }
{}

/// A log that was read to its end, of a file that is all on the disk, keeps its entries.
pub fn recovered_is_kept()
    ensures { RecoveredIsKept }
{}
