//! What is kept of a page, its latest revision, and plans that change what is kept of one page.
ghost use Rattle.std.specs.Prelude.{◌≡◌, ℕ, true, List, [], ◌∷◌, Option, Some, IfOk, max, option_and_then};
ghost use Rattle.std.specs.Option.{option_copied};
ghost use Rattle.page_tree.specs.Tree.{Forest, has_page};
ghost use Rattle.page_tree.specs.Rows.{rows_of};
ghost use Rattle.site_types.specs.declared.body.Body.{Body as PageBody};
ghost use Rattle.site_model.specs.World as worlds;
ghost use Rattle.site_model.specs.Bodies as bodies;
ghost use Rattle.site_model.specs.Views as views;
ghost use Rattle.flat_model.specs.Single.{body_change};
ghost use Rattle.site_part.specs.Standing.{StandsFor};
ghost use Rattle.moderating.specs.Plans.{ending_plan, Plans};

use page_store::Rows;
use revision_shelf::Shelf;
use site_part::{Change, Fault, Plan, TreePart};
use site_types::{Body, Ids, Moment, NoMemory, PageId, Reply, Revision, RevisionId};
use std::alloc::Global;

/// What is kept of a page, or `None` exactly if there is no such page. One look-up.
pub fn body_of(rows: &Rows, page: PageId) -> Option<Body>
    ensures { (tree : Forest PageBody) → rows.now.pages ≡ rows_of tree
        → result ≡ views.body_of tree page }
{
    match rows.row(page) {
        Some(row) => Some(row.body),
        None => None,
    }
}

/// What is kept of a page that is there. One look-up.
pub fn kept_of(part: &TreePart, page: PageId) -> Body
    requires { (world : worlds.TreePart) × StandsFor part.now world
        × (has_page page world.tree ≡ true) }
    ensures { (world : worlds.TreePart) → StandsFor part.now world
        → views.body_of world.tree page ≡ Some result }
{
    let Some(body) = body_of(&part.rows, page) else {
        unreachable!();
    };
    body
}

/// The latest revision of a page, or `None` exactly if it has none. Two look-ups.
pub fn latest_of(part: &TreePart, page: PageId) -> Option<&Revision>
    ensures { (world : worlds.TreePart) → StandsFor part.now world
        → option_copied result ≡ bodies.latest_of world page }
{
    match body_of(&part.rows, page) {
        Some(body) => revision_of(&part.shelf, body.latest),
        None => None,
    }
}

/// The revision with an id, or `None` exactly if there is no id or no such revision. One look-up.
fn revision_of(shelf: &Shelf, id: Option<RevisionId>) -> Option<&Revision>
    ensures { option_copied result
        ≡ option_and_then (λ id. bodies.revision_with id shelf.now.revisions) id }
{
    match id {
        Some(id) => shelf.get(id),
        None => None,
    }
}

/// Whether two revisions are the same, or both are absent.
pub fn same_revision(one: Option<RevisionId>, other: Option<RevisionId>) -> bool
    ensures { result ≡ bodies.same_number one other }
{
    match one {
        Some(one) => match other {
            Some(other) => one == other,
            None => false,
        },
        None => other.is_none(),
    }
}

/// Whether two moments are the same, or both are absent.
pub fn same_moment(one: Option<Moment>, other: Option<Moment>) -> bool
    ensures { result ≡ bodies.same_number one other }
{
    match one {
        Some(one) => match other {
            Some(other) => one == other,
            None => false,
        },
        None => other.is_none(),
    }
}

/// The plan that gives a page these fields, ends the desks on these pages and gives this reply.
pub fn body_plan(
    alloc: Global,
    part: &TreePart,
    page: PageId,
    body: Body,
    time: Moment,
    reply: Reply,
    shut: Ids,
) -> Result<Plan, Fault>
    ensures { Plans (ending_plan reply shut
        (body_change page body time part.now.next_page part.now.next_revision)) result }
{
    match Change::of_body(alloc, page, body, time, part.next_page, part.next_revision) {
        Ok(change) => Ok(ending(alloc, reply, shut, change)),
        Err(_) => Err(Fault::Memory),
    }
}

/// A plan that opens no desk and ends those on these pages. It takes no memory.
pub fn ending(alloc: Global, reply: Reply, shut: Ids, change: Change) -> Plan
    ensures { result ≡ ending_plan reply shut change }
{
    let mut plan = Plan::quiet(alloc, reply, change);
    plan.shut = shut;
    plan
}

/// A list of one page.
pub fn one_page(alloc: Global, page: PageId) -> Result<Ids, NoMemory>
    ensures { IfOk result (λ pages. pages ≡ page ∷ []) }
{
    let mut pages = Vec::with_capacity(alloc, 1)?;
    pages.push(page.get())?;
    Ok(Ids::from_vec(pages))
}

/// No page. It takes no memory.
pub fn no_pages(alloc: Global) -> Ids
    ensures { result ≡ [] }
{
    Ids::from_vec(Vec::new(alloc))
}

/// The later of two moments.
pub fn later(time: Moment, now: Moment) -> Moment
    ensures { result ≡ max time now }
{
    if time.get() < now.get() { now } else { time }
}
