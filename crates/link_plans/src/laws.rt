//! Laws of links. Each is a function that does nothing: its contract is the law.
ghost use Rattle.link_plans.specs.Laws.{RowsHaveLinks, PairsHaveRefs, ChangeTells, NewRowsAreTold};

/// By its rows and revisions a world's page links to the pages that it links to.
pub fn rows_have_links()
    ensures { RowsHaveLinks }
{}

/// Pairs that rise and are in step with a world's rows and revisions have the pages that link to a
/// page.
pub fn pairs_have_refs()
    ensures { PairsHaveRefs }
{}

/// A change that fits tells all of the pages after it, if before it and after it the revisions that
/// pages have as their latest and shown ones are there.
pub fn change_tells()
    ensures { ChangeTells }
{}

/// Rows that come one after another are told.
pub fn new_rows_are_told()
    ensures { NewRowsAreTold }
{}
