//! Plans of copies.
ghost use Rattle.std.specs.Prelude.{◌≡◌, ◌+◌, ◌||◌, ◌&&◌, ℕ, Bool, true, None, nat_lt, IsSome, Option, IfOk};
ghost use Rattle.page_tree.specs.Tree.{Forest, has_page, node_of};
ghost use Rattle.page_tree.specs.Rows.{rows_of, row_with};
ghost use Rattle.site_ids.specs.declared.ids.TheConstants.{LAST_PAGE_ID, LAST_REVISION_ID};
ghost use Rattle.site_types.specs.Content.{ContentValue};
ghost use Rattle.site_types.specs.declared.body.Body.{Body as PageBody};
ghost use Rattle.site_types.specs.declared.command.Command.TheVariants as commands;
ghost use Rattle.site_model.specs.World as worlds;
ghost use Rattle.site_model.specs.Copies.{copy_rules, into_copy};
ghost use Rattle.site_model.specs.Rules.{first_of};
ghost use Rattle.site_part.specs.Plans.{Prepares};
ghost use Rattle.site_part.specs.Standing.{IsSame};
ghost use Rattle.new_pages.specs.Plans.{PlansBy, IsAsked, IsSoundTree};
ghost use Rattle.new_pages.specs.Copying.{IsSource, IsCopyPlace, IsNewCopy, copy_place_rules, copying_plan};

use crate::copied_rows::{coming_revisions, coming_rows, ids_at};
use crate::going::goes;
use crate::place::{NewPlace, both, plan_url};
use crate::room::make_room;
use crate::source::{Source, short_path, short_url, source_of};
use crate::telling::{later, text_of};
use crate::weighing::weighs_more;
use page_copies::plan_copy;
use page_store::Rows;
use path_moves::plan_append;
use revision_shelf::MAX_CONTENT_SUM;
use site_part::{Change, Fault, Plan, TreeChange, TreePart};
use site_types::{
    Items, LAST_PAGE_ID, LAST_REVISION_ID, Moment, NoMemory, PageId, PageRow, Refusal, Reply,
    Revision, Slug, Url, UserId,
};
use std::alloc::Global;

/// A copy that may be made.
#[derive(Drop)]
pub(crate) struct NewCopy {
    /// The path and the URL of the copy.
    pub(crate) place: NewPlace,
    /// What is copied.
    pub(crate) source: Source,
    /// The revisions of the copies, with the contents that they get.
    pub(crate) revisions: Items<Revision>,
}

/// The plan of a copy of a page, alone or with all below it, below a parent that is there, which
/// its caller may make.
///
/// It costs a few look-ups, a copy of a content and a URL for each page that is copied.
pub fn plan_copying(
    alloc: Global,
    part: &mut TreePart,
    page: PageId,
    parent: PageId,
    slug: &Slug,
    deep: bool,
    caller: UserId,
    now: Moment,
) -> Result<Plan, Fault>
    requires { (world : worlds.TreePart)
        × IsAsked part.old world caller (commands.Copy page parent slug.now deep) }
    ensures same { IsSame part.old part.new }
    ensures plan { (world : worlds.TreePart) (desk : Option ContentValue)
        → IsAsked part.old world caller (commands.Copy page parent slug.now deep)
        → Prepares world desk now caller (commands.Copy page parent slug.now deep) part.new result }
{
    let _len = part.rows.len();
    let made = match new_copy(alloc, part, page, parent, slug, deep, caller, now) {
        Ok(made) => made,
        Err(fault) => return Err(fault),
    };
    let Ok(rows) = coming_rows(alloc, part, &made.source, &made.place, slug, caller) else {
        return Err(Fault::Memory);
    };
    let (page, _first) = ids_at(part, 0);
    let time = later(part.time, now);
    let count = made.source.rest + 1;
    let next_page = part.next_page + count as u32;
    let next_revision = part.next_revision + count as u32;
    let Ok(()) = make_room(part, count, count) else {
        return Err(Fault::Memory);
    };
    let NewCopy {
        place,
        revisions,
        ..
    } = made;
    match copying_plan(
        alloc,
        page,
        place,
        rows,
        revisions,
        time,
        next_page,
        next_revision,
    ) {
        Ok(plan) => Ok(plan),
        Err(_) => Err(Fault::Memory),
    }
}

/// A copy that may be made, or the first rule that refuses it.
fn new_copy(
    alloc: Global,
    part: &TreePart,
    page: PageId,
    parent: PageId,
    slug: &Slug,
    deep: bool,
    caller: UserId,
    now: Moment,
) -> Result<NewCopy, Fault>
    requires { (world : worlds.TreePart)
        × IsAsked part.now world caller (commands.Copy page parent slug.now deep) }
    ensures { (world : worlds.TreePart)
        → IsAsked part.now world caller (commands.Copy page parent slug.now deep)
        → PlansBy (copy_rules world now caller page parent slug.now deep)
        (IsNewCopy world part.now.rows.pages (worlds.time_at world now) caller page parent slug.now
        deep) result }
{
    let _len = part.rows.len();
    if is_into_copy(&part.rows, page, parent, deep) {
        return Err(Fault::Refused(Refusal::IntoItself));
    }
    let source = source_of(&part.rows, page, deep);
    let place = match copy_place(alloc, &part.rows, &source, parent, slug) {
        Ok(place) => place,
        Err(fault) => return Err(fault),
    };
    if lacks_ids(part, source.rest) {
        return Err(Fault::Refused(Refusal::IdsFull));
    }
    let Ok(plan) = plan_copy(alloc, &part.rows, &part.shelf, page, deep) else {
        return Err(Fault::Memory);
    };
    let Ok(revisions) = coming_revisions(alloc, part, plan, caller, later(part.time, now)) else {
        return Err(Fault::Memory);
    };
    if weighs_more(MAX_CONTENT_SUM - part.shelf.weight(), revisions.as_slice()) {
        return Err(Fault::Refused(Refusal::ContentFull));
    }
    Ok(NewCopy {
        place,
        source,
        revisions,
    })
}

/// Whether a deep copy would come below what it copies.
fn is_into_copy(rows: &Rows, page: PageId, parent: PageId, deep: bool) -> bool
    requires { IsSome (row_with page rows.now.pages) }
    ensures { (tree : Forest PageBody) → rows.now.pages ≡ rows_of tree
        → result ≡ (deep && has_page parent (node_of page tree)) }
{
    deep && goes(rows, page, parent)
}

/// Where a copy goes below a parent that is there, or the first rule on its place that refuses it.
fn copy_place(
    alloc: Global,
    rows: &Rows,
    source: &Source,
    parent: PageId,
    slug: &Slug,
) -> Result<NewPlace, Fault>
    requires { (part : worlds.TreePart) × (page : ℕ) × (deep : Bool)
        × (rows.now.pages ≡ rows_of part.tree) × IsSoundTree part × (has_page parent part.tree ≡ true)
        × IsSource rows.now.pages part.tree page deep source.now }
    ensures { (part : worlds.TreePart) (caller page : ℕ) (deep : Bool)
        → rows.now.pages ≡ rows_of part.tree → IsSoundTree part → has_page parent part.tree ≡ true
        → IsSource rows.now.pages part.tree page deep source.now
        → into_copy part page parent deep ≡ None
        → PlansBy (first_of (copy_place_rules part caller page parent slug.now deep))
        (IsCopyPlace part rows.now.pages parent slug.now source.now) result }
{
    let _len = rows.len();
    let url = short_url(rows, source, plan_url(alloc, rows, parent, slug));
    let path = short_path(rows, source, plan_append(rows, parent));
    match both(path, url) {
        Ok((path, url)) => Ok(NewPlace { path, url }),
        Err(fault) => Err(fault),
    }
}

/// Whether fewer ids are left than a page and so many below it need.
fn lacks_ids(part: &TreePart, rest: usize) -> bool
    ensures { result ≡ (nat_lt LAST_PAGE_ID (part.now.next_page + rest)
        || nat_lt LAST_REVISION_ID (part.now.next_revision + rest)) }
{
    is_past(part.next_page, rest, LAST_PAGE_ID)
        || is_past(part.next_revision, rest, LAST_REVISION_ID)
}

/// Whether the id that so many others come before is past the last, where this is the next.
fn is_past(next: u32, rest: usize, last: u32) -> bool
    ensures { result ≡ nat_lt last (next + rest) }
{
    (next as u64).saturating_add(rest as u64) > last as u64
}

/// The plan of a copy with these rows and revisions, where these are the next ids then.
fn copying_plan(
    alloc: Global,
    page: PageId,
    place: NewPlace,
    rows: Items<(PageRow, Url)>,
    revisions: Items<Revision>,
    time: Moment,
    next_page: u32,
    next_revision: u32,
) -> Result<Plan, NoMemory>
    ensures { IfOk result
        (λ plan. plan ≡ copying_plan page place rows revisions time next_page next_revision) }
{
    let NewPlace { path, url } = place;
    let reply = Reply::Page {
        id: page,
        path: text_of(&path),
        url,
    };
    let tree = TreeChange::Insert { rows };
    let mut change = Change::of_tree(alloc, tree, time, next_page, next_revision);
    change.revisions = revisions;
    Ok(Plan::quiet(alloc, reply, change))
}
