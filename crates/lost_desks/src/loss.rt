//! The open desks that end by what is taken away.
ghost use Rattle.std.specs.Prelude.{◌≡◌, ◌&&◌, Some, filter, slice_get, IfOk};
ghost use Rattle.std.specs.List.{list_any};
ghost use Rattle.site_model.specs.World as worlds;
ghost use Rattle.site_model.specs.Losing as losing;
ghost use Rattle.site_model.specs.Users.{is_membership};
ghost use Rattle.desk_pairs.specs.Pairs.{pair_of};
ghost use Rattle.site_part.specs.Plans.{pages_of};
ghost use Rattle.lost_desks.specs.Staying.{HasDesksOf};
ghost use Rattle.lost_desks.specs.Losses.{HasParent, is_lost_by, page_lost};

use crate::moving::is_lost_below;
use crate::staying::stays;
use crate::within::is_within;
use site_part::TreePart;
use site_types::{GroupId, Ids, NoMemory, PageId, UserId};
use std::alloc::Global;

/// What is taken away, so that desks may end.
#[derive(Clone, Copy, Debug)]
pub(crate) enum Loss {
    /// Rights of a user.
    RightsOf(UserId),
    /// Rights of a group's members at a page and below it.
    RightsBelow(PageId, GroupId),
    /// A page and all below it.
    Pages(PageId),
    /// The place of a page and of all below it, which go below a parent.
    Place(PageId, PageId),
}

/// The pages of the desks that end, rising.
///
/// It looks at each open desk, and at what its user may do only if the desk may end.
pub(crate) fn lost_desks(alloc: Global, part: &TreePart, loss: &Loss) -> Result<Ids, NoMemory>
    requires { HasParent part.now.rows.pages loss.now }
    ensures { (world : worlds.TreePart) → HasDesksOf world part.now
        → IfOk result (λ ids. ids ≡ pages_of (filter (is_lost_by world loss.now) world.desk_pairs)) }
{
    let mut pages = Vec::new(alloc);
    for place in 0..part.desk_pairs.len() {
        if let Some(page) = lost_at(part, loss, place) {
            pages.push(page.get())?;
        }
    }
    Ok(Ids::from_vec(pages))
}

/// The page of the desk at a place, if that ends.
fn lost_at(part: &TreePart, loss: &Loss, place: usize) -> Option<PageId>
    requires { HasParent part.now.rows.pages loss.now }
    ensures { (world : worlds.TreePart) → HasDesksOf world part.now
        → result ≡ page_lost (is_lost_by world loss.now) (slice_get world.desk_pairs place) }
{
    match part.desk_pairs.at(place) {
        Some((page, user)) => lost_page(part, loss, page, user),
        None => None,
    }
}

/// The page of a desk, if that ends.
fn lost_page(part: &TreePart, loss: &Loss, page: PageId, user: UserId) -> Option<PageId>
    requires { HasParent part.now.rows.pages loss.now }
    ensures { (world : worlds.TreePart) → HasDesksOf world part.now
        → result ≡ page_lost (is_lost_by world loss.now) (Some (pair_of page user)) }
{
    if is_lost(part, loss, page, user) {
        Some(page)
    } else {
        None
    }
}

/// Whether the desk of a user on a page ends.
fn is_lost(part: &TreePart, loss: &Loss, page: PageId, user: UserId) -> bool
    requires { HasParent part.now.rows.pages loss.now }
    ensures { (world : worlds.TreePart) → HasDesksOf world part.now
        → result ≡ is_lost_by world loss.now (pair_of page user) }
{
    match loss {
        Loss::RightsOf(other) => user == *other && !stays(part, page, user),
        Loss::RightsBelow(top, group) => {
            may_lose(part, *top, *group, page, user) && !stays(part, page, user)
        }
        Loss::Pages(top) => is_within(&part.rows, *top, page),
        Loss::Place(top, parent) => is_lost_below(part, *top, *parent, page, user),
    }
}

/// Whether a user is a member of a group, and a page is this one or lies below it.
fn may_lose(part: &TreePart, top: PageId, group: GroupId, page: PageId, user: UserId) -> bool
    ensures { (world : worlds.TreePart) → HasDesksOf world part.now
        → result ≡ (losing.is_within world.tree top page
        && list_any (is_membership user group) world.members) }
{
    part.grants.is_member(user, group) && is_within(&part.rows, top, page)
}
