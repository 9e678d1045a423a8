//! What keeps time tables in step without a change to them. Each is a function that does nothing:
//! its contract is the law.
ghost use Rattle.publishing.specs.Laws.{RevisionsChange, RevisionsCome, RevisionsGo, PagesChange, PageComes, PagesMove, TablesStart};
ghost use Rattle.publishing.specs.Ticks.{DueInWorld};

/// Tables stay in step with other revisions, where each page names the same ones.
pub fn revisions_change()
    ensures { RevisionsChange }
{}

/// Tables stay in step when revisions come that no page shows or has scheduled.
pub fn revisions_come()
    ensures { RevisionsCome }
{}

/// Tables stay in step when revisions go that no page shows or has scheduled.
pub fn revisions_go()
    ensures { RevisionsGo }
{}

/// Tables stay in step with other rows, where each page keeps what is kept of it, and each that
/// comes is neither live nor scheduled.
pub fn pages_change()
    ensures { PagesChange }
{}

/// Tables stay in step when a page comes that is neither live nor scheduled and was not there.
pub fn page_comes()
    ensures { PageComes }
{}

/// Tables stay in step when pages move or get other paths, URLs, slugs and child counts.
pub fn pages_move()
    ensures { PagesMove }
{}

/// Tables without moments are those of pages that are neither live nor scheduled.
pub fn tables_start()
    ensures { TablesStart }
{}

/// What is due in a world is due of the rows of its tree and of its revisions.
pub fn due_in_world()
    ensures { DueInWorld }
{}
