//! Revisions that come.
ghost use Rattle.std.specs.Prelude.{◌≡◌, ◌≤◌, ◌++◌, length};
ghost use Rattle.flat_model.specs.Fits.{RevisionsFit};

use revision_shelf::Shelf;
use site_types::{Items, Revision};

/// Adds revisions, rising. It cannot fail. Two look-ups for each.
pub(crate) fn put_revisions(shelf: &mut Shelf, revisions: Items<Revision>)
    requires fits { RevisionsFit revisions shelf.old.revisions }
    requires room { length revisions ≤ shelf.old.spare }
    ensures { shelf.new.revisions ≡ shelf.old.revisions ++ revisions }
{
    for revision in revisions.into_vec() {
        shelf.add(revision);
    }
}
