//! What commands do to the URLs of a tree. Each is a function that does nothing: its contract is
//! the law.
ghost use Rattle.slug_urls.specs.Laws.{CreationChangesUrls, RenamingChangesUrls, MoveChangesUrls, LongUrlsAreNew};

/// A new page changes the URLs that its creation plans: its own.
pub fn creation_changes_urls()
    ensures { CreationChangesUrls }
{}

/// Another slug changes the URLs that it plans: the page's and those of all below it, or none.
pub fn renaming_changes_urls()
    ensures { RenamingChangesUrls }
{}

/// A move changes the URLs that it plans: the page's and those of all below it, or none.
pub fn move_changes_urls()
    ensures { MoveChangesUrls }
{}

/// A URL that is too long is one that changed.
pub fn long_urls_are_new()
    ensures { LongUrlsAreNew }
{}
