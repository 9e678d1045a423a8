//! What is kept of the pages that a tick changes, after it.
ghost use Rattle.std.specs.Prelude.{◌≡◌, ◌++◌, Some, IfOk};
ghost use Rattle.publishing.specs.Times.{AreTimed};
ghost use Rattle.publishing.specs.Ticks.{due_expiries, due_go_lives, pages_in};
ghost use Rattle.site_model.specs.Ticks.{pages_due};
ghost use Rattle.publishing.specs.Ticked as specs;
ghost use Rattle.publishing.specs.Ticked.{changed_bodies, ticked_body};

use crate::bodies::{expired_body, has_expired, published_body, unscheduled_body};
use crate::body::{expiry, find, go_live};
use page_store::Rows;
use revision_shelf::Shelf;
use site_types::{Body, Items, Moment, NoMemory, PageId};
use std::alloc::Global;
use time_table::Times;

/// The pages that a tick at `t` changes, each with its fields after it: first those that stop being
/// live, and then those whose scheduled revision is published or dropped. A page of both kinds stands
/// twice, with the same fields.
///
/// It costs two searches, and for each page that is due a few look-ups.
pub fn tick_bodies(
    alloc: Global,
    rows: &Rows,
    times: &Times,
    shelf: &Shelf,
    t: Moment,
) -> Result<Items<(PageId, Body)>, NoMemory>
    requires { AreTimed times.now rows.now.pages shelf.now.revisions }
    ensures { IfOk result (λ bodies. bodies
        ≡ changed_bodies (ticked_body shelf.now.revisions t) rows.now.pages
        (pages_due (due_expiries rows.now.pages shelf.now.revisions t)
        ++ pages_due (due_go_lives rows.now.pages shelf.now.revisions t))) }
{
    let _count = (rows.len(), times.expiries.len(), times.go_lives.len());
    let mut bodies = Vec::new(alloc);
    put_ticked(&mut bodies, rows, shelf, t, times.expiries.due(t))?;
    put_ticked(&mut bodies, rows, shelf, t, times.go_lives.due(t))?;
    Ok(Items::from_vec(bodies))
}

/// Puts the pages of these pairs, each that is there with its fields after a tick at `t`, behind a list.
fn put_ticked(
    bodies: &mut Vec<(PageId, Body)>,
    rows: &Rows,
    shelf: &Shelf,
    t: Moment,
    due: &[(Moment, PageId)],
) -> Result<(), NoMemory>
    ensures { IfOk result (λ done. bodies.new.items ≡ bodies.old.items
        ++ changed_bodies (ticked_body shelf.now.revisions t) rows.now.pages (pages_in due.now)) }
{
    for pair in due {
        let page = pair.1;
        if let Some(row) = rows.row(page) {
            bodies.push((page, ticked(shelf, &row.body, t)))?;
        }
    }
    Ok(())
}

/// A page with these fields after a tick at `t`.
fn ticked(shelf: &Shelf, body: &Body, t: Moment) -> Body
    ensures { result ≡ ticked_body shelf.now.revisions t body.now }
{
    after_go_live(shelf, &after_expiry(shelf, body, t), t)
}

/// A page with these fields after its expiry, if that is at most `t`.
fn after_expiry(shelf: &Shelf, body: &Body, t: Moment) -> Body
    ensures { result ≡ specs.after_expiry shelf.now.revisions t body.now }
{
    if has_come(expiry(shelf, body), t) {
        expired_body(body)
    } else {
        *body
    }
}

/// A page with these fields after the go-live of its scheduled revision, if that is at most `t`.
fn after_go_live(shelf: &Shelf, body: &Body, t: Moment) -> Body
    ensures { result ≡ specs.after_go_live shelf.now.revisions t body.now }
{
    if !has_come(go_live(shelf, body), t) {
        return *body;
    }
    match find(shelf, body.scheduled) {
        Some(revision) => {
            if has_expired(revision, t) {
                unscheduled_body(body)
            } else {
                published_body(revision, body, t)
            }
        }
        None => *body,
    }
}

/// Whether a moment is there and at most `t`.
fn has_come(moment: Option<Moment>, t: Moment) -> bool
    ensures { result ≡ specs.has_come t moment }
{
    match moment {
        Some(moment) => moment <= t,
        None => false,
    }
}
