//! What a caller needs for a command.
ghost use Rattle.std.specs.Prelude.{◌≡◌, ◌==◌, ◌&&◌, ◌||◌, [], ◌∷◌, Some, None, IsSome, true, if◌then◌else◌};
ghost use Rattle.page_tree.specs.Rows.{row_with};
ghost use Rattle.site_types.specs.declared.permission.Permission.TheVariants.{Add, BulkDelete, Publish};
ghost use Rattle.site_model.specs.World as worlds;
ghost use Rattle.site_model.specs.Needs as needs;
ghost use Rattle.site_model.specs.Rights as rights;
ghost use Rattle.site_model.specs.Views as views;
ghost use Rattle.tree_model.specs.Places.{is_beside, parent_at};
ghost use Rattle.command_rows.specs.Naming.{NamesPages};
ghost use Rattle.command_rows.specs.Needs.{AreNamed, seen_needs};
ghost use Rattle.grants.specs.Granted.{seen_held};
ghost use Rattle.site_part.specs.Standing.{StandsFor};
ghost use Rattle.site_part.specs.Needs.{is_by, need_told};

use crate::TreePart;
use crate::asking::{may_answer, moderates};
use crate::living::{any_live, is_live_page};
use crate::owning::{body_at, has_kids, owns_all};
use command_rows::{NeedRow, need_row};
use grants::{Held, holds, number};
use page_store::new_parent;
use site_types::{Body, Command, PageId, Permission, Position, UserId};

/// The need to hold change.
const CHANGE: u8 = 2;

/// The need to be a superuser.
const SUPERUSER: u8 = 7;

/// The need to be asked by the current task of a moderation.
const ANSWER: u8 = 8;

/// A need of a command that its caller does not meet: a permission from 1 to 6 (add, change, publish,
/// bulk delete, lock, unlock), 7, to be a superuser, or 8, to be asked by the current task.
#[derive(Clone, Copy, Debug, PartialEq, Eq)]
pub struct Need {
    /// Its number.
    pub number: u8,
}

/// Whether a user may give a command, or the first need that the user does not meet.
///
/// It costs what is held at the pages that the command names, for a moderated page at most 16 searches
/// among the user's groups, and for a deletion, a move or another slug a look at each page that goes along.
pub fn may(part: &TreePart, user: UserId, command: &Command) -> Result<(), Need>
    requires { (world : worlds.TreePart) × StandsFor part.now world × NamesPages world.tree command.now }
    ensures { (world : worlds.TreePart) → StandsFor part.now world
        → result ≡ need_told (needs.may world user command.now) }
{
    let row = need_row(command);
    match first_need(part, user, &row) {
        Some(number) => Err(Need { number }),
        None => Ok(()),
    }
}

/// The number of the first need that a user does not meet, if there is one.
fn first_need(part: &TreePart, user: UserId, row: &NeedRow) -> Option<u8>
    requires { AreNamed (λ page. IsSome (row_with page part.now.rows.pages)) row.now }
    ensures { (world : worlds.TreePart) → StandsFor part.now world
        → result ≡ needs.unmet world user (seen_needs world user row.now) }
{
    if part.grants.is_superuser(user) {
        return None;
    }
    match row {
        NeedRow::Nothing => None,
        NeedRow::Superuser => Some(SUPERUSER),
        NeedRow::Add(parent) => hold_need(part, user, Permission::Add, *parent),
        NeedRow::Move(page, target, position) => {
            move_need(part, user, *page, *target, *position)
        }
        NeedRow::Delete(page) => delete_need(part, user, *page),
        NeedRow::Rename(page) => rename_need(part, user, *page),
        NeedRow::Alias(source, parent) => alias_need(part, user, *source, *parent),
        NeedRow::Detach(page) => detach_need(part, user, *page),
        NeedRow::Edit(page) => edit_need(part, user, *page),
        NeedRow::Hold(permission, page) => hold_need(part, user, *permission, *page),
        NeedRow::Unlock(page) => unlock_need(part, user, *page),
        NeedRow::Answer(page) => answer_need(part, user, *page),
        NeedRow::Cancel(page) => cancel_need(part, user, *page),
    }
}

/// The need to hold a permission at a page.
fn hold_need(part: &TreePart, user: UserId, permission: Permission, page: PageId) -> Option<u8>
    requires { IsSome (row_with page part.now.rows.pages) }
    ensures { (world : worlds.TreePart) → StandsFor part.now world
        → result ≡ needs.need_at world user permission page }
{
    let held = part.grants.held(&part.rows, user, page);
    if holds(held, permission) {
        None
    } else {
        Some(number(permission))
    }
}

/// The need to hold publish at a page if another, or a page below that one, is live. Whether any is live is
/// looked at only for a user who does not hold publish.
fn live_need(part: &TreePart, user: UserId, page: PageId, at: PageId) -> Option<u8>
    requires page_there { IsSome (row_with page part.now.rows.pages) }
    requires at_there { IsSome (row_with at part.now.rows.pages) }
    ensures { (world : worlds.TreePart) → StandsFor part.now world
        → result ≡ needs.live_need world user page at }
{
    match hold_need(part, user, Permission::Publish, at) {
        None => None,
        Some(number) => where_live(any_live(&part.rows, page), number),
    }
}

/// A need, if a page is live.
fn where_live(is_live: bool, number: u8) -> Option<u8>
    ensures { result ≡ (if is_live then Some number else None) }
{
    if is_live { Some(number) } else { None }
}

/// The first need to take a page away that is not met: to change it, or to own it and all below it; and to
/// publish there if any of them is live.
fn leave_need(part: &TreePart, user: UserId, page: PageId) -> Option<u8>
    requires { IsSome (row_with page part.now.rows.pages) }
    ensures { (world : worlds.TreePart) → StandsFor part.now world
        → result ≡ needs.first_unmet (needs.take_need world user page
        ∷ needs.live_need world user page page ∷ []) }
{
    let held = part.grants.held(&part.rows, user, page);
    match take_need(part, held, user, page) {
        Some(number) => Some(number),
        None => live_need(part, user, page, page),
    }
}

/// The first need to put a page below a parent that is not met: to add there, and to publish there
/// if the page or one below it is live.
fn arrive_need(part: &TreePart, user: UserId, page: PageId, parent: PageId) -> Option<u8>
    requires page_there { IsSome (row_with page part.now.rows.pages) }
    requires parent_there { IsSome (row_with parent part.now.rows.pages) }
    ensures { (world : worlds.TreePart) → StandsFor part.now world
        → result ≡ needs.first_unmet (needs.need_at world user Add parent
        ∷ needs.live_need world user page parent ∷ []) }
{
    match hold_need(part, user, Permission::Add, parent) {
        Some(number) => Some(number),
        None => live_need(part, user, page, parent),
    }
}

/// The first need of a move that is not met.
fn move_need(
    part: &TreePart,
    user: UserId,
    page: PageId,
    target: PageId,
    position: Position,
) -> Option<u8>
    requires page_there { IsSome (row_with page part.now.rows.pages) }
    requires target_there { IsSome (row_with target part.now.rows.pages) }
    requires below_root { is_beside position ≡ true → target ≡ 1 → ⊥ }
    ensures { (world : worlds.TreePart) → StandsFor part.now world
        → result ≡ needs.first_unmet (needs.move_needs world user page target position) }
{
    match leave_need(part, user, page) {
        Some(number) => Some(number),
        None => arrive_need(part, user, page, new_parent(&part.rows, target, position)),
    }
}

/// The first need of a deletion that is not met.
fn delete_need(part: &TreePart, user: UserId, page: PageId) -> Option<u8>
    requires { IsSome (row_with page part.now.rows.pages) }
    ensures { (world : worlds.TreePart) → StandsFor part.now world
        → result ≡ needs.first_unmet (needs.delete_needs world user page) }
{
    match leave_need(part, user, page) {
        Some(number) => Some(number),
        None => bulk_need(part, user, page),
    }
}

/// The need to hold bulk delete at a page that has kids.
fn bulk_need(part: &TreePart, user: UserId, page: PageId) -> Option<u8>
    requires { IsSome (row_with page part.now.rows.pages) }
    ensures { (world : worlds.TreePart) → StandsFor part.now world
        → result ≡ needs.need_where (views.has_kids world.tree page) world user BulkDelete page }
{
    if has_kids(&part.rows, page) {
        hold_need(part, user, Permission::BulkDelete, page)
    } else {
        None
    }
}

/// The need to take a page away with all below it: to hold change at it, or to hold add at it and own
/// it and every page below it.
fn take_need(part: &TreePart, held: Held, user: UserId, page: PageId) -> Option<u8>
    requires { IsSome (row_with page part.now.rows.pages) }
    ensures { (world : worlds.TreePart) → StandsFor part.now world
        → seen_held held ≡ rights.held world user page
        → result ≡ needs.take_need world user page }
{
    if held.change || held.add && owns_all(&part.rows, user, page) {
        None
    } else {
        Some(CHANGE)
    }
}

/// The first need of another slug that is not met.
fn rename_need(part: &TreePart, user: UserId, page: PageId) -> Option<u8>
    requires { IsSome (row_with page part.now.rows.pages) }
    ensures { (world : worlds.TreePart) → StandsFor part.now world
        → result ≡ needs.first_unmet (needs.slug_needs world user page) }
{
    match edit_need(part, user, page) {
        Some(number) => Some(number),
        None => live_need(part, user, page, page),
    }
}

/// The first need of an alias that is not met.
fn alias_need(part: &TreePart, user: UserId, source: PageId, parent: PageId) -> Option<u8>
    requires { IsSome (row_with parent part.now.rows.pages) }
    ensures { (world : worlds.TreePart) → StandsFor part.now world
        → result ≡ needs.first_unmet (needs.alias_needs world user source parent) }
{
    match hold_need(part, user, Permission::Add, parent) {
        Some(number) => Some(number),
        None => show_need(part, user, source, parent),
    }
}

/// The need to hold publish at a page if another is live.
fn show_need(part: &TreePart, user: UserId, page: PageId, at: PageId) -> Option<u8>
    requires { IsSome (row_with at part.now.rows.pages) }
    ensures { (world : worlds.TreePart) → StandsFor part.now world
        → result ≡ needs.need_where (views.is_live_page world.tree page) world user Publish at }
{
    if is_live_page(&part.rows, page) {
        hold_need(part, user, Permission::Publish, at)
    } else {
        None
    }
}

/// The first need of making an alias a regular page that is not met.
fn detach_need(part: &TreePart, user: UserId, page: PageId) -> Option<u8>
    requires { IsSome (row_with page part.now.rows.pages) }
    ensures { (world : worlds.TreePart) → StandsFor part.now world
        → result ≡ needs.first_unmet (needs.detach_needs world user page) }
{
    match edit_need(part, user, page) {
        Some(number) => Some(number),
        None => show_need(part, user, page, page),
    }
}

/// The need to edit a page: to hold change at it, to hold add at it and own it, or to moderate it.
fn edit_need(part: &TreePart, user: UserId, page: PageId) -> Option<u8>
    requires { IsSome (row_with page part.now.rows.pages) }
    ensures { (world : worlds.TreePart) → StandsFor part.now world
        → result ≡ needs.edit_need world user page }
{
    let held = part.grants.held(&part.rows, user, page);
    let body = body_at(&part.rows, page);
    if may_edit(part, held, &body, user) {
        None
    } else {
        Some(CHANGE)
    }
}

/// Whether one who holds this may edit the page of which this is kept.
fn may_edit(part: &TreePart, held: Held, body: &Body, user: UserId) -> bool
    ensures { (world : worlds.TreePart) → StandsFor part.now world
        → result ≡ held.change || ((held.add && (body.now.owner == user))
        || views.moderates (rights.rights_of world user)
        (views.stage_of world body.now.moderation)) }
{
    held.change
        || held.add && body.owner == user
        || moderates(&part.grants, &part.flows, user, body)
}

/// The need to answer a moderation.
fn answer_need(part: &TreePart, user: UserId, page: PageId) -> Option<u8>
    requires { IsSome (row_with page part.now.rows.pages) }
    ensures { (world : worlds.TreePart) → StandsFor part.now world
        → result ≡ needs.first_unmet (needs.answer_needs world user page) }
{
    let body = body_at(&part.rows, page);
    if may_answer(&part.grants, &part.flows, user, &body) {
        None
    } else {
        Some(ANSWER)
    }
}

/// The need to unlock a page, which whoever has locked it does not have.
fn unlock_need(part: &TreePart, user: UserId, page: PageId) -> Option<u8>
    requires { IsSome (row_with page part.now.rows.pages) }
    ensures { (world : worlds.TreePart) → StandsFor part.now world
        → result ≡ needs.first_unmet (needs.unlock_needs world user page) }
{
    let body = body_at(&part.rows, page);
    if has_locked(&body, user) {
        return None;
    }
    hold_need(part, user, Permission::Unlock, page)
}

/// The need to give a moderation up, which whoever has submitted it does not have.
fn cancel_need(part: &TreePart, user: UserId, page: PageId) -> Option<u8>
    requires { IsSome (row_with page part.now.rows.pages) }
    ensures { (world : worlds.TreePart) → StandsFor part.now world
        → result ≡ needs.first_unmet (needs.cancel_needs world user page) }
{
    let body = body_at(&part.rows, page);
    if has_submitted(&body, user) {
        return None;
    }
    hold_need(part, user, Permission::Publish, page)
}

/// Whether a user has locked the page of which this is kept.
fn has_locked(body: &Body, user: UserId) -> bool
    ensures { result ≡ is_by body.now.locked_by user }
{
    match body.locked_by {
        Some(other) => other == user,
        None => false,
    }
}

/// Whether a user has submitted the moderation of the page of which this is kept.
fn has_submitted(body: &Body, user: UserId) -> bool
    ensures { result ≡ needs.has_submitted user (Some body.now) }
{
    match body.moderation {
        Some(moderation) => moderation.by == user,
        None => false,
    }
}
