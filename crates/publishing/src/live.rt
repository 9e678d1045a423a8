//! Publishing a revision, unpublishing, locking and unlocking.
ghost use Rattle.std.specs.Prelude.{◌≡◌, ◌+◌, ◌≤◌, Some, IsSome, List, IfSome};
ghost use Rattle.page_tree.specs.Rows.{row_with};
ghost use Rattle.page_store.specs.Changes.{with_body};
ghost use Rattle.revision_shelf.specs.Shelf.{revision_with};
ghost use Rattle.site_model.specs.Bodies.{is_after};
ghost use Rattle.site_model.specs.Publishing.{published_body};
ghost use Rattle.site_types.specs.declared.revision.Revision.{Revision as PageRevision};
ghost use Rattle.time_table.specs.declared.times.Times.{Times as BothTables};
ghost use Rattle.publishing.specs.Bodies.{unpublished_body, locked_body, unlocked_body};
ghost use Rattle.publishing.specs.Times.{body_in, AreTimed};

use crate::bodies::{locked_body, published_body, unlocked_body, unpublished_body, waits};
use crate::body::{body_of, put_body};
use page_store::Rows;
use revision_shelf::Shelf;
use site_types::{Moment, PageId, RevisionId, UserId};
use time_table::Times;

/// Publishes a revision of a page at `t`, and tells whether it was only scheduled, as it is exactly
/// where its go-live is after `t`.
pub fn publish(
    rows: &mut Rows,
    times: &mut Times,
    shelf: &Shelf,
    page: PageId,
    revision: RevisionId,
    t: Moment,
) -> bool
    requires there { IsSome (row_with page rows.old.pages) }
    requires revision { IsSome (revision_with revision shelf.now.revisions) }
    requires expiries { 1 ≤ times.old.expiries.spare }
    requires go_lives { 1 ≤ times.old.go_lives.spare }
    ensures scheduled { IfSome (revision_with revision shelf.now.revisions) (λ it.
        result ≡ is_after t it.go_live) }
    ensures pages { IfSome (revision_with revision shelf.now.revisions) (λ it.
        IfSome (body_in page rows.old.pages) (λ body.
        rows.new.pages ≡ with_body page (published_body t it body) rows.old.pages)) }
    ensures spare { rows.new.spare ≡ rows.old.spare }
    ensures timed { AreTimed times.old rows.old.pages shelf.now.revisions
        → AreTimed times.new rows.new.pages shelf.now.revisions }
    ensures expiries_spare { times.old.expiries.spare ≤ times.new.expiries.spare + 1 }
    ensures go_lives_spare { times.old.go_lives.spare ≤ times.new.go_lives.spare + 1 }
{
    let Some(it) = shelf.get(revision) else {
        unreachable!();
    };
    let body = published_body(it, &body_of(rows, page), t);
    put_body(rows, times, shelf, page, body);
    waits(it, t)
}

/// Takes a page out of the public, and empties its schedule.
pub fn unpublish(rows: &mut Rows, times: &mut Times, page: PageId)
    requires { IsSome (row_with page rows.old.pages) }
    ensures pages { IfSome (body_in page rows.old.pages) (λ body.
        rows.new.pages ≡ with_body page (unpublished_body body) rows.old.pages) }
    ensures spare { rows.new.spare ≡ rows.old.spare }
    ensures timed { (revisions : List PageRevision) → AreTimed times.old rows.old.pages revisions
        → AreTimed times.new rows.new.pages revisions }
    ensures expiries_spare { times.old.expiries.spare ≤ times.new.expiries.spare }
    ensures go_lives_spare { times.old.go_lives.spare ≤ times.new.go_lives.spare }
{
    let body = unpublished_body(&body_of(rows, page));
    times.expiries.clear(page);
    times.go_lives.clear(page);
    rows.set_body(page, body);
}

/// Locks a page for a user; a lock of another user goes.
pub fn lock(rows: &mut Rows, page: PageId, user: UserId)
    requires { IsSome (row_with page rows.old.pages) }
    ensures pages { IfSome (body_in page rows.old.pages) (λ body.
        rows.new.pages ≡ with_body page (locked_body user body) rows.old.pages) }
    ensures spare { rows.new.spare ≡ rows.old.spare }
    ensures timed { (times : BothTables) (revisions : List PageRevision) →
        AreTimed times rows.old.pages revisions → AreTimed times rows.new.pages revisions }
{
    let body = locked_body(&body_of(rows, page), user);
    rows.set_body(page, body);
}

/// Takes the lock of a page away.
pub fn unlock(rows: &mut Rows, page: PageId)
    requires { IsSome (row_with page rows.old.pages) }
    ensures pages { IfSome (body_in page rows.old.pages) (λ body.
        rows.new.pages ≡ with_body page (unlocked_body body) rows.old.pages) }
    ensures spare { rows.new.spare ≡ rows.old.spare }
    ensures timed { (times : BothTables) (revisions : List PageRevision) →
        AreTimed times rows.old.pages revisions → AreTimed times rows.new.pages revisions }
{
    let body = unlocked_body(&body_of(rows, page));
    rows.set_body(page, body);
}
