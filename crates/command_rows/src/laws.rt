//! Laws of the rows of commands. Each is a function that does nothing: its contract is the law.
ghost use Rattle.command_rows.specs.Laws.{NeedsAreSeen};

/// The needs of every command are those of its kind.
pub fn needs_are_seen()
    ensures { NeedsAreSeen }
{}
