//! The chains of revisions, from the newest of each page back, as revisions go.
ghost use Rattle.std.specs.Prelude.{◌≡◌, ℕ, ◌+◌, ◌≤◌, List, Some, None, IsSome, is_some, nat_eq, if◌then◌else◌};
ghost use Rattle.std.specs.List.{AllByRecursion};
ghost use Rattle.std.specs.Map.{lookup};
ghost use Rattle.indexmap.specs.IndexMap.{UpdatesBy, spare, index_map_len};
ghost use Rattle.site_types.specs.Ids.{IsPageId};
ghost use Rattle.site_types.specs.declared.revision.Revision.{Revision as PageRevision};
ghost use Rattle.std.specs.Option.{option_map};
ghost use Rattle.revision_shelf.specs.Shelf.{latest_of, without_page, without_pages};
ghost use Rattle.revision_shelf.specs.Kept.{without, without_latest, before_in, led_to, IsOwn, IsChained};

use crate::shelf::Kept;
use indexmap::IndexMap;
use site_types::{PageId, RevisionId};
use std::hash::Hash;

/// Takes the chains of the pages with these ids out.
pub(crate) fn take_pages(
    stored: &mut IndexMap<RevisionId, Kept>,
    newest: &mut IndexMap<PageId, RevisionId>,
    weight: &mut u64,
    pages: &[u32],
)
    requires ids { AllByRecursion IsPageId pages.now }
    requires chained { (revisions : List PageRevision)
        × IsChained stored.old.entries newest.old.entries weight.old revisions }
    ensures chained { (revisions : List PageRevision) →
        IsChained stored.old.entries newest.old.entries weight.old revisions →
        IsChained stored.new.entries newest.new.entries weight.new (without_pages pages.now revisions) }
    ensures spare_stored { spare stored.old ≤ spare stored.new }
    ensures spare_newest { spare newest.old ≤ spare newest.new }
{
    for number in pages {
        take_chain(stored, newest, weight, page_of(*number));
    }
}

/// Takes the chain of a page out.
fn take_chain(
    stored: &mut IndexMap<RevisionId, Kept>,
    newest: &mut IndexMap<PageId, RevisionId>,
    weight: &mut u64,
    page: PageId,
)
    requires chained { (revisions : List PageRevision)
        × IsChained stored.old.entries newest.old.entries weight.old revisions }
    ensures chained { (revisions : List PageRevision) →
        IsChained stored.old.entries newest.old.entries weight.old revisions →
        IsChained stored.new.entries newest.new.entries weight.new (without_page page revisions) }
    ensures spare_stored { spare stored.old ≤ spare stored.new }
    ensures spare_newest { spare newest.old ≤ spare newest.new }
{
    while take_newest(stored, newest, weight, page).is_some() {}
}

/// Takes the newest revision of a page out and gives its id, or `None` exactly if it has none.
pub(crate) fn take_newest(
    stored: &mut IndexMap<RevisionId, Kept>,
    newest: &mut IndexMap<PageId, RevisionId>,
    weight: &mut u64,
    page: PageId,
) -> Option<RevisionId>
    requires chained { (revisions : List PageRevision)
        × IsChained stored.old.entries newest.old.entries weight.old revisions }
    ensures newest { result ≡ lookup (nat_eq page) newest.old.entries }
    ensures chained { (revisions : List PageRevision) →
        IsChained stored.old.entries newest.old.entries weight.old revisions →
        IsChained stored.new.entries newest.new.entries weight.new (without_latest page revisions) }
    ensures len { index_map_len stored.new + (if is_some result then 1 else 0)
        ≡ index_map_len stored.old }
    ensures spare_stored { spare stored.old ≤ spare stored.new }
    ensures spare_newest { spare newest.old ≤ spare newest.new }
{
    let Some(id) = newest.get(&page).copied() else {
        return None;
    };
    let Some(kept) = stored.swap_remove(&id) else {
        unreachable!();
    };
    *weight -= kept.revision.content.form_length();
    set_newest(newest, page, kept.previous);
    Some(id)
}

/// Takes a revision of a page out: the one before `after`, which then leads to the one before it, or
/// the page's newest.
pub(crate) fn unlink(
    stored: &mut IndexMap<RevisionId, Kept>,
    newest: &mut IndexMap<PageId, RevisionId>,
    weight: &mut u64,
    page: PageId,
    after: Option<RevisionId>,
    id: RevisionId,
)
    requires chained { (revisions : List PageRevision)
        × IsChained stored.old.entries newest.old.entries weight.old revisions
        × IsOwn page after revisions
        × (latest_of page (before_in after revisions) ≡ Some id) }
    ensures chained { (revisions : List PageRevision) →
        IsChained stored.old.entries newest.old.entries weight.old revisions →
        IsOwn page after revisions →
        latest_of page (before_in after revisions) ≡ Some id →
        IsChained stored.new.entries newest.new.entries weight.new (without id revisions) }
    ensures spare_stored { spare stored.old ≤ spare stored.new }
    ensures spare_newest { spare newest.old ≤ spare newest.new }
{
    let Some(kept) = stored.swap_remove(&id) else {
        unreachable!();
    };
    let weighs = kept.revision.content.form_length();
    *weight -= weighs;
    match after {
        Some(after) => set_previous(stored, after, kept.previous),
        None => set_newest(newest, page, kept.previous),
    }
}

/// Makes another revision the one before this, if this is there.
fn set_previous(
    stored: &mut IndexMap<RevisionId, Kept>,
    id: RevisionId,
    previous: Option<RevisionId>,
)
    ensures others { (other : ℕ) → lookup (nat_eq other) stored.new.entries
        ≡ (if nat_eq id other then option_map (led_to previous) (lookup (nat_eq id) stored.old.entries)
        else lookup (nat_eq other) stored.old.entries) }
    ensures spare { spare stored.new ≡ spare stored.old }
{
    if let Some(kept) = stored.get_mut(&id) {
        kept.previous = previous;
    }
}

/// Makes another revision the newest of a page that has one, or takes the page out.
fn set_newest(newest: &mut IndexMap<PageId, RevisionId>, page: PageId, id: Option<RevisionId>)
    requires { IsSome (lookup (nat_eq page) newest.old.entries) }
    ensures pages { (other : ℕ) → lookup (nat_eq other) newest.new.entries
        ≡ (if nat_eq page other then id else lookup (nat_eq other) newest.old.entries) }
    ensures spare { spare newest.old ≤ spare newest.new }
{
    match id {
        Some(id) => set(newest, page, id),
        None => take_out(newest, &page),
    }
}

/// Makes another revision the newest of a page that has one.
fn set(newest: &mut IndexMap<PageId, RevisionId>, page: PageId, id: RevisionId)
    requires { IsSome (lookup (nat_eq page) newest.old.entries) }
    ensures pages { (other : ℕ) → lookup (nat_eq other) newest.new.entries
        ≡ (if nat_eq page other then Some id else lookup (nat_eq other) newest.old.entries) }
    ensures spare { spare newest.new ≡ spare newest.old }
{
    if let Some(place) = newest.get_mut(&page) {
        *place = id;
    }
}

/// Takes a key out of a map, if it is there.
fn take_out<K: Eq + Hash + Drop, V: Drop>(map: &mut IndexMap<K, V>, key: &K)
    ensures updates { UpdatesBy K.eq (K.eq key.now) map.old map.new None }
    ensures spare { spare map.old ≤ spare map.new }
{
    let _ = map.swap_remove(key);
}

/// The page with this number.
pub(crate) fn page_of(number: u32) -> PageId
    requires { IsPageId number }
    ensures { result ≡ number }
{
    match PageId::new(number) {
        Some(page) => page,
        None => unreachable!(),
    }
}
