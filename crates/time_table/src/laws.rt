//! Laws of time tables. Each is a function that does nothing: its contract is the law.
ghost use Rattle.time_table.specs.Laws.{MomentIsSet, MomentIsCleared, TablesStay};

/// A page that gets a moment has it, and each other page keeps its own.
pub fn moment_is_set()
    ensures { MomentIsSet }
{}

/// A page that is cleared has no moment, and each other page keeps its own.
pub fn moment_is_cleared()
    ensures { MomentIsCleared }
{}

/// A table with one page set or cleared is a table.
pub fn tables_stay()
    ensures { TablesStay }
{}
