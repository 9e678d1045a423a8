//! What cuts, grafts and moves are on rows. Each is a function that does nothing: its contract is the law.
ghost use Rattle.path_moves.specs.Laws.{CutTakesRowsOut, GraftPutsRowsIn, RowsAreRelabelled, MoveRelabelsRows, GraftAtFirstRaises, GraftBeforeRaises, ChangedUrlsAreComplete};

/// A cut takes out the rows that begin with the page's path, and lowers its parent's child count.
pub fn cut_takes_rows_out()
    ensures { CutTakesRowsOut }
{}

/// A graft behind the kids of any page puts the rows in behind those of that page and of all below.
pub fn graft_puts_rows_in()
    ensures { GraftPutsRowsIn }
{}

/// The rows of a page and of all below it, at another place, have their beginnings replaced.
pub fn rows_are_relabelled()
    ensures { RowsAreRelabelled }
{}

/// A move behind the last kid of a page takes the rows out and puts them in with other beginnings.
pub fn move_relabels_rows()
    ensures { MoveRelabelsRows }
{}

/// A graft at the first place raises the step of each kid, in its row and in those of all below it.
pub fn graft_at_first_raises()
    ensures { GraftAtFirstRaises }
{}

/// A graft before a kid raises the step of that kid and of each later one.
pub fn graft_before_raises()
    ensures { GraftBeforeRaises }
{}

/// The URLs that change from some rows to others, with those from before, are all of the later ones.
pub fn changed_urls_are_complete()
    ensures { ChangedUrlsAreComplete }
{}
