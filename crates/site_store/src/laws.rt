//! The law of a journal's file. Nothing runs.
ghost use Rattle.site_store.specs.Laws.{RecoversSoundly};

/// A file that recovers is bad nowhere.
pub fn recovers_soundly()
    ensures { RecoversSoundly }
{}
