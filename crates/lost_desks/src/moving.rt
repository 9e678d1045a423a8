//! The open desks that end as pages are moved.
ghost use Rattle.std.specs.Prelude.{◌≡◌, true, not, ◌&&◌, Some, IsSome, filter, IfOk};
ghost use Rattle.std.specs.List.{list_any};
ghost use Rattle.page_tree.specs.Rows.{row_with};
ghost use Rattle.site_model.specs.World as worlds;
ghost use Rattle.site_model.specs.Rights.{rights_of, permits};
ghost use Rattle.site_model.specs.Views.{body_of, view_of, meets};
ghost use Rattle.site_model.specs.Losing as losing;
ghost use Rattle.site_model.specs.LosingLaws as laws;
ghost use Rattle.desk_pairs.specs.Pairs.{pair_of};
ghost use Rattle.grants.specs.Granted.{held_where, held_either};
ghost use Rattle.site_part.specs.Plans.{pages_of};
ghost use Rattle.site_part.specs.Standing.{IsReady};
ghost use Rattle.lost_desks.specs.Staying.{HasDesksOf};

use crate::loss::{Loss, lost_desks};
use crate::within::is_within;
use grants::Held;
use site_part::{TreePart, moderates};
use site_types::{Body, Ids, NoMemory, PageId, UserId};
use std::alloc::Global;

/// The pages at a page and below it whose desks end, rising, as the page is moved below a parent: those
/// whose users may not edit there any more.
///
/// It looks at each open desk, and for those on the page and below it at what the user holds at the parent,
/// and at what is granted to the user on the way from the page down.
pub fn lost_by_move(
    alloc: Global,
    part: &TreePart,
    page: PageId,
    parent: PageId,
) -> Result<Ids, NoMemory>
    requires { IsSome (row_with parent part.now.rows.pages) }
    ensures { (world : worlds.TreePart) → IsReady part.now world
        → IfOk result (λ ids. ids
        ≡ pages_of (filter (laws.is_lost_below world page parent) world.desk_pairs)) }
{
    lost_desks(alloc, part, &Loss::Place(page, parent))
}

/// Whether the desk of a user on a page ends as `top` is moved below a parent: the page is `top` or lies
/// below it, and the user may not edit it there.
pub(crate) fn is_lost_below(
    part: &TreePart,
    top: PageId,
    parent: PageId,
    page: PageId,
    user: UserId,
) -> bool
    requires { IsSome (row_with parent part.now.rows.pages) }
    ensures { (world : worlds.TreePart) → HasDesksOf world part.now
        → result ≡ laws.is_lost_below world top parent (pair_of page user) }
{
    let Some(row) = part.rows.row(page) else {
        return false;
    };
    if is_within(&part.rows, top, page) {
        !may_edit_below(part, top, parent, page, &row.body, user)
    } else {
        false
    }
}

/// Whether a user may edit a page of which this is kept, once `top`, at or above it, is below a parent.
fn may_edit_below(
    part: &TreePart,
    top: PageId,
    parent: PageId,
    page: PageId,
    body: &Body,
    user: UserId,
) -> bool
    requires there { IsSome (row_with page part.now.rows.pages) }
    requires parent_there { IsSome (row_with parent part.now.rows.pages) }
    ensures { (world : worlds.TreePart) → HasDesksOf world part.now
        → losing.is_within world.tree top page ≡ true → body_of world.tree page ≡ Some body.now
        → result ≡ meets (laws.edits_below world user parent (laws.between world.tree top page))
        (view_of world page) }
{
    let held = part.grants.held(&part.rows, user, parent);
    let granted = granted_from(part, top, page, user);
    let own = body.owner == user;
    let asked = moderates(&part.grants, &part.flows, user, body);
    held.change | granted.change | ((held.add | granted.add) & own) | asked
}

/// What is granted to a user's groups at the pages from `top` down to a page at or below it.
fn granted_from(part: &TreePart, top: PageId, page: PageId, user: UserId) -> Held
    requires { IsSome (row_with page part.now.rows.pages) }
    ensures { (world : worlds.TreePart) → HasDesksOf world part.now
        → losing.is_within world.tree top page ≡ true
        → result ≡ held_where (λ permission. list_any
        (λ id. list_any (permits permission id) (rights_of world user).granted)
        (laws.between world.tree top page)) }
{
    let _len = part.rows.len();
    let here = part.grants.granted_here(user, page);
    if page == top {
        return here;
    }
    match part.rows.parent(page) {
        Some(parent) => either(granted_from(part, top, parent, user), here),
        None => here,
    }
}

/// What is held one way or the other.
fn either(one: Held, other: Held) -> Held
    ensures { result ≡ held_either one other }
{
    Held {
        add: one.add | other.add,
        change: one.change | other.change,
        publish: one.publish | other.publish,
        bulk_delete: one.bulk_delete | other.bulk_delete,
        lock: one.lock | other.lock,
        unlock: one.unlock | other.unlock,
    }
}
