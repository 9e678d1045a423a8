//! What becomes of the open desks, as it was planned.
ghost use Rattle.std.specs.Prelude.{◌≡◌, ℕ, ◌==◌, Some, None, if◌then◌else◌};
ghost use Rattle.std.specs.Option.{option_map};
ghost use Rattle.desks.specs.Desks.{desk_of, rewritten};
ghost use Rattle.std.specs.List.{AllByRecursion, list_any};
ghost use Rattle.site_ids.specs.Ids.{IsPageId};
ghost use Rattle.site_core.specs.Texts.{kept_on, opened_on, saved_on, desk_left, CanOpen, OpensWell};

use crate::desk_parts::DeskParts;
use part_commits::page_of;
use site_types::{Content, Ids, PageId, UserId};

/// Opens, saves and shuts desks, as it was planned. It cannot fail, and takes no memory.
///
/// It costs a search for each desk, and moves the small entries behind it.
pub(crate) fn put_texts(
    desks: &mut DeskParts,
    opened: Option<(PageId, UserId, Content)>,
    saved: Option<(PageId, UserId, Content)>,
    shut: Ids,
)
    requires opens { OpensWell desks.old opened }
    requires pages { AllByRecursion IsPageId shut }
    ensures { (page : ℕ) → kept_on page desks.new.lists
        ≡ desk_left opened saved shut page (kept_on page desks.old.lists) }
{
    put_opened(desks, opened);
    put_saved(desks, saved);
    cut_texts(desks, shut.as_slice());
}

/// Opens a desk, if one is to be opened.
fn put_opened(desks: &mut DeskParts, opened: Option<(PageId, UserId, Content)>)
    requires { OpensWell desks.old opened }
    ensures { (page : ℕ) → kept_on page desks.new.lists
        ≡ opened_on opened page (kept_on page desks.old.lists) }
{
    match opened {
        None => {}
        Some(desk) => open_desk(desks, desk),
    }
}

/// Opens a desk: its page, its user and its text.
fn open_desk(desks: &mut DeskParts, desk: (PageId, UserId, Content))
    requires { CanOpen desks.old desk.0 }
    ensures { (page : ℕ) → kept_on page desks.new.lists
        ≡ (if desk.0 == page then Some (desk_of desk.0 desk.1 desk.2) else kept_on page desks.old.lists) }
{
    desks.open(desk.0, desk.1, desk.2);
}

/// Saves a text, if one is to be saved and its user has the desk.
fn put_saved(desks: &mut DeskParts, saved: Option<(PageId, UserId, Content)>)
    ensures { (page : ℕ) → kept_on page desks.new.lists
        ≡ saved_on saved (kept_on page desks.old.lists) }
{
    match saved {
        None => {}
        Some(desk) => save_desk(desks, desk),
    }
}

/// Saves a text, if its user has the desk: the page and the user, and the text.
fn save_desk(desks: &mut DeskParts, desk: (PageId, UserId, Content))
    ensures { (page : ℕ) → kept_on page desks.new.lists
        ≡ option_map (rewritten desk.0 desk.1 desk.2) (kept_on page desks.old.lists) }
{
    let _ = desks.save(desk.0, desk.1, desk.2);
}

/// Shuts the desks on these pages.
fn cut_texts(desks: &mut DeskParts, shut: &[u32])
    requires { AllByRecursion IsPageId shut.now }
    ensures { (page : ℕ) → kept_on page desks.new.lists
        ≡ (if list_any (λ id. id == page) shut.now then None else kept_on page desks.old.lists) }
{
    for number in shut {
        desks.shut(page_of(*number));
    }
}
