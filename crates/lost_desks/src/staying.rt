//! Whether an open desk stays.
ghost use Rattle.std.specs.Prelude.{◌≡◌, ◌||◌, not, IsSome};
ghost use Rattle.page_tree.specs.Rows.{row_with};
ghost use Rattle.site_model.specs.World as worlds;
ghost use Rattle.site_model.specs.Desks as desks;
ghost use Rattle.site_model.specs.LosingLaws as laws;
ghost use Rattle.site_model.specs.Rights.{is_superuser};
ghost use Rattle.desk_pairs.specs.Pairs.{pair_of};
ghost use Rattle.lost_desks.specs.Staying.{HasDesksOf, is_open_to, is_underway, keeps};

use site_part::{TreePart, moderates};
use site_types::{Body, Moderation, ModerationStatus, PageId, UserId};

/// Whether a user's desk on a page stays open: the page is there, the user may edit it, and neither its
/// lock nor its moderation stops the user.
///
/// It costs what is held at the page, and for a moderated page at most 16 searches among the user's
/// groups.
pub fn stays(part: &TreePart, page: PageId, user: UserId) -> bool
    ensures { (world : worlds.TreePart) → HasDesksOf world part.now
        → result ≡ desks.stays world (pair_of page user) }
{
    let Some(row) = part.rows.row(page) else {
        return false;
    };
    may_work(part, page, &row.body, user)
}

/// Whether a user's desk on a page stays open with this moderation in place of the page's.
pub(crate) fn stays_with(
    part: &TreePart,
    page: PageId,
    user: UserId,
    moderation: Option<Moderation>,
) -> bool
    ensures { (world : worlds.TreePart) → HasDesksOf world part.now
        → result ≡ laws.stays_with world moderation (pair_of page user) }
{
    let Some(row) = part.rows.row(page) else {
        return false;
    };
    let left = Body {
        moderation,
        ..row.body
    };
    may_work(part, page, &left, user)
}

/// Whether a user may edit a page that is there, of which this is kept, and neither its lock nor its
/// moderation stops the user.
fn may_work(part: &TreePart, page: PageId, body: &Body, user: UserId) -> bool
    requires { IsSome (row_with page part.now.rows.pages) }
    ensures { (world : worlds.TreePart) → HasDesksOf world part.now
        → result ≡ keeps world page user body.now }
{
    let held = part.grants.held(&part.rows, user, page);
    let own = body.owner == user;
    let asked = moderates(&part.grants, &part.flows, user, body);
    let free = asked | part.grants.is_superuser(user) | !is_underway(body.moderation);
    (held.change | (held.add & own) | asked) & (is_open_to(body.locked_by, user) & free)
}

/// Whether no other user has locked a page.
fn is_open_to(locked_by: Option<UserId>, user: UserId) -> bool
    ensures { result ≡ is_open_to locked_by user }
{
    match locked_by {
        Some(other) => other == user,
        None => true,
    }
}

/// Whether a moderation is in progress, if there is one.
fn is_underway(moderation: Option<Moderation>) -> bool
    ensures { result ≡ is_underway moderation }
{
    match moderation {
        Some(moderation) => matches!(moderation.status, ModerationStatus::InProgress),
        None => false,
    }
}
