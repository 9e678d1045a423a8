//! The law of sessions: a function that does nothing, whose contract is the law.
ghost use Rattle.pagetree_session.specs.Laws.{OneOutcome};

/// If no call failed and memory sufficed, the bytes and the moments determine what a session writes
/// and how it ends.
pub fn one_outcome()
    ensures { OneOutcome }
{}
