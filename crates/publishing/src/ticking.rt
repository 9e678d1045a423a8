//! Which pages a tick changes.
ghost use Rattle.std.specs.Prelude.{◌≡◌, IfOk};
ghost use Rattle.std.specs.Option.{option_copied};
ghost use Rattle.publishing.specs.Times.{AreTimed};
ghost use Rattle.publishing.specs.Ticks.{due_of, scheduled_in, is_dropped, pages_in, IsSplit, IsTickPlan};

use crate::bodies::has_expired;
use crate::body::find;
use crate::due::TickPlan;
use page_store::Rows;
use revision_shelf::Shelf;
use site_types::{Ids, Moment, NoMemory, PageId, Revision};
use std::alloc::Global;
use time_table::Times;

/// What a tick at `t` does: first live pages whose expiry is at most `t` stop being live, and then
/// each scheduled revision with a go-live of at most `t` is dropped if it has expired by `t`, and else
/// published.
///
/// It costs two searches, and for each page that is due a few look-ups.
pub fn tick_plan(
    alloc: Global,
    rows: &Rows,
    times: &Times,
    shelf: &Shelf,
    t: Moment,
) -> Result<TickPlan, NoMemory>
    requires { AreTimed times.now rows.now.pages shelf.now.revisions }
    ensures { IfOk result (IsTickPlan (due_of rows.now.pages shelf.now.revisions t)) }
{
    let _count = (rows.len(), times.expiries.len(), times.go_lives.len());
    let unpublished = pages_of(alloc, times.expiries.due(t))?;
    plan_of(alloc, rows, shelf, t, unpublished, times.go_lives.due(t))
}

/// The pages of these pairs, in their order.
fn pages_of(alloc: Global, due: &[(Moment, PageId)]) -> Result<Ids, NoMemory>
    ensures { IfOk result (λ pages. pages ≡ pages_in due.now) }
{
    let mut pages = Vec::new(alloc);
    for pair in due {
        pages.push(pair.1.get())?;
    }
    Ok(Ids::from_vec(pages))
}

/// The plan with these pages that stop being live, and with the pages of these pairs: they are dropped
/// where their scheduled revision has expired by `t`, and else published.
fn plan_of(
    alloc: Global,
    rows: &Rows,
    shelf: &Shelf,
    t: Moment,
    unpublished: Ids,
    due: &[(Moment, PageId)],
) -> Result<TickPlan, NoMemory>
    ensures { IfOk result (IsSplit rows.now.pages shelf.now.revisions t unpublished due.now) }
{
    let mut published = Vec::new(alloc);
    let mut dropped = Vec::new(alloc);
    for pair in due {
        let page = pair.1;
        if is_dropped(rows, shelf, t, page) {
            dropped.push(page.get())?;
        } else {
            published.push(page.get())?;
        }
    }
    Ok(TickPlan {
        unpublished,
        published: Ids::from_vec(published),
        dropped: Ids::from_vec(dropped),
    })
}

/// Whether the scheduled revision of a page has expired by `t`.
fn is_dropped(rows: &Rows, shelf: &Shelf, t: Moment, page: PageId) -> bool
    ensures { result ≡ is_dropped rows.now.pages shelf.now.revisions t page }
{
    match scheduled_of(rows, shelf, page) {
        Some(revision) => has_expired(revision, t),
        None => false,
    }
}

/// The revision that a page has scheduled, or `None` exactly if it has none. Two look-ups.
fn scheduled_of<'a>(rows: &Rows, shelf: &'a Shelf, page: PageId) -> Option<&'a Revision>
    ensures { option_copied result ≡ scheduled_in rows.now.pages shelf.now.revisions page }
{
    match rows.row(page) {
        Some(row) => find(shelf, row.body.scheduled),
        None => None,
    }
}
