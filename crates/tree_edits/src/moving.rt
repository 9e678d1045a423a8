//! Plans of moves.
ghost use Rattle.std.specs.Prelude.{◌≡◌, ℕ, Option, IfOk};
ghost use Rattle.site_types.specs.Content.{ContentValue};
ghost use Rattle.page_tree.specs.Rows.{rows_of};
ghost use Rattle.site_types.specs.declared.command.Command.TheVariants as commands;
ghost use Rattle.tree_model.specs.Places.{stays_put, parent_at, slug_in};
ghost use Rattle.slug_urls.specs.Plans.{planned_urls, UnlessMemory};
ghost use Rattle.site_model.specs.World as worlds;
ghost use Rattle.site_model.specs.Rules.{first_of};
ghost use Rattle.site_part.specs.Plans.{Prepares};
ghost use Rattle.site_part.specs.Standing.{IsReady, IsSame};
ghost use Rattle.new_pages.specs.Plans.{PlansBy, IsAsked, NamesMove};
ghost use Rattle.new_pages.specs.Moving.{there_rules, taken_by, IsNamed, IsAway, IsMovePlan, AreLostBelow};

use lost_desks::lost_by_move;
use new_pages::{both, later, told_page};
use page_store::{MovePlan, Rows, Urls, is_beside, new_parent};
use path_moves::{leads_into_itself, plan_move};
use site_part::{Change, Fault, Plan, TreeChange, TreePart};
use site_types::{Ids, Moment, NoMemory, PageId, Position, Refusal};
use slug_urls::{UrlFault, plan_urls};
use std::alloc::Global;

/// The plan of a move that names pages which are there, and which its caller may give.
///
/// It costs what `plan_move` and `plan_urls` cost: a few look-ups for each page that moves and for
/// each later sibling with all below it, and one URL for each page whose URL changes; and what
/// `lost_by_move` costs.
pub(crate) fn plan_moving(
    alloc: Global,
    part: &mut TreePart,
    page: PageId,
    target: PageId,
    position: Position,
    now: Moment,
) -> Result<Plan, Fault>
    requires { (world : worlds.TreePart) × (caller : ℕ)
        × IsAsked part.old world caller (commands.Move page target position) }
    ensures same { IsSame part.old part.new }
    ensures plan { (world : worlds.TreePart) (desk : Option ContentValue) (caller : ℕ)
        → IsAsked part.old world caller (commands.Move page target position)
        → Prepares world desk now caller (commands.Move page target position) part.new result }
{
    let _len = part.rows.len();
    let (plan, urls) = match plan_there(alloc, &part.rows, page, target, position) {
        Ok(made) => made,
        Err(fault) => return Err(fault),
    };
    let Ok(reply) = told_page(alloc, &part.rows, page, &plan.rows, &urls) else {
        return Err(Fault::Memory);
    };
    let Ok(shut) = shut_there(alloc, part, page, target, position) else {
        return Err(Fault::Memory);
    };
    let Ok(()) = part.rows.reserve(2) else {
        return Err(Fault::Memory);
    };
    let change = Change::of_tree(
        alloc,
        TreeChange::Move { plan, urls },
        later(part.time, now),
        part.next_page,
        part.next_revision,
    );
    let mut made = Plan::quiet(alloc, reply, change);
    made.shut = shut;
    Ok(made)
}

/// The pages, rising, whose desks end as a page goes to a position at a target page: those on the
/// page and below it whose users may not edit there below the new parent.
fn shut_there(
    alloc: Global,
    part: &TreePart,
    page: PageId,
    target: PageId,
    position: Position,
) -> Result<Ids, NoMemory>
    requires { (world : worlds.TreePart) × IsReady part.now world
        × NamesMove world.tree page target position }
    ensures { (world : worlds.TreePart) → IsReady part.now world
        → IfOk result (AreLostBelow world page (parent_at world.tree target position)) }
{
    let parent = new_parent(&part.rows, target, position);
    lost_by_move(alloc, part, page, parent)
}

/// The plan of a move and the URLs that change with it, or why it is refused: the first of the
/// rules that does.
///
/// A target in the page itself and a slug that is taken cost a few look-ups.
fn plan_there(
    alloc: Global,
    rows: &Rows,
    page: PageId,
    target: PageId,
    position: Position,
) -> Result<(MovePlan, Urls), Fault>
    requires { (part : worlds.TreePart) × IsNamed rows.now.pages part page target position }
    ensures { (part : worlds.TreePart) → IsNamed rows.now.pages part page target position
        → PlansBy (first_of (there_rules part.tree page target position))
        (IsMovePlan part.tree page target position) result }
{
    if stays(page, target, position) {
        return Err(Fault::Refused(Refusal::NothingNew));
    }
    if leads_into_itself(rows, page, target) {
        return Err(Fault::Refused(Refusal::IntoItself));
    }
    let urls = urls_there(alloc, rows, page, target, position);
    if let Some(other) = taken(&urls) {
        return Err(Fault::Refused(Refusal::SlugTaken(other)));
    }
    let plan = plan_move(alloc, rows, page, target, position);
    both(plan, urls)
}

/// The page that has the slug, if that is why there are no URLs.
fn taken(urls: &Result<Urls, UrlFault>) -> Option<PageId>
    ensures { result ≡ taken_by urls.now }
{
    match urls {
        Err(UrlFault::Taken(other)) => Some(*other),
        _ => None,
    }
}

/// Whether the target is the page itself, at a position among its own siblings.
fn stays(page: PageId, target: PageId, position: Position) -> bool
    ensures { result ≡ stays_put page target position }
{
    page == target && is_beside(position)
}

/// The URLs that change where a page goes to a position at a target page.
fn urls_there(
    alloc: Global,
    rows: &Rows,
    page: PageId,
    target: PageId,
    position: Position,
) -> Result<Urls, UrlFault>
    requires { (part : worlds.TreePart) × IsAway rows.now.pages part page target position }
    ensures { (part : worlds.TreePart) → IsAway rows.now.pages part page target position
        → UnlessMemory (planned_urls part.tree page (parent_at part.tree target position)
        (slug_in part.tree page)) result }
{
    let _len = rows.len();
    let parent = new_parent(rows, target, position);
    let Some(row) = rows.row(page) else {
        unreachable!()
    };
    plan_urls(alloc, rows, page, parent, &row.slug)
}
