//! Grants.
ghost use Rattle.std.specs.Prelude.{◌≡◌, ◌+◌, ◌<◌, ◌≤◌, ◌==◌, not, [], ◌∷◌, filter, length, slice_get};
ghost use Rattle.std.specs.Prelude.{vec_len, vec_capacity};
ghost use Rattle.std.specs.Option.{option_map};
ghost use Rattle.std.specs.List.{list_any};
ghost use Rattle.page_tree.specs.Rows.{comes_before};
ghost use Rattle.site_model.specs.Rights.{permission_number};
ghost use Rattle.site_model.specs.Users.{grant_key, is_grant};
ghost use Rattle.site_model.specs.Sound.{KeysRise};
ghost use Rattle.flat_model.specs.People.{grants_with};
ghost use Rattle.desk_pairs.specs.Places.{place_of, search_told, passes};

use crate::Grants;
use crate::places::{cut, put};
use site_types::{Grant, GroupId, PageId, Permission};

impl Grants {
    /// Grants a permission at a page to a group, or withdraws it. Where it is so already nothing
    /// changes.
    ///
    /// It costs a search of as many steps as the number of grants has binary digits, and moves twelve
    /// bytes for each grant behind.
    pub fn set_grant(&mut self, group: GroupId, page: PageId, permission: Permission, on: bool)
        requires spare { 1 ≤ self.old.spare }
        ensures users { self.new.users ≡ self.old.users }
        ensures groups { self.new.groups ≡ self.old.groups }
        ensures members { self.new.members ≡ self.old.members }
        ensures grants { self.new.grants ≡ grants_with self.old.grants group page permission on }
        ensures spare { self.old.spare ≤ self.new.spare + 1 }
    {
        let grant = Grant {
            page,
            group,
            permission,
        };
        set(&mut self.grants, grant, on);
    }

    /// Withdraws all grants at a page.
    ///
    /// It costs two searches, and moves twelve bytes for each grant behind the page's.
    pub fn drop_page(&mut self, page: PageId)
        ensures users { self.new.users ≡ self.old.users }
        ensures groups { self.new.groups ≡ self.old.groups }
        ensures members { self.new.members ≡ self.old.members }
        ensures grants { self.new.grants ≡ filter (λ grant. not (grant.page == page)) self.old.grants }
        ensures spare { self.old.spare ≤ self.new.spare }
    {
        cut_page(&mut self.grants, page);
    }

    /// Whether the group has been granted the permission at the page itself. One search.
    pub fn is_granted(&self, group: GroupId, page: PageId, permission: Permission) -> bool
        ensures { result ≡ list_any (is_grant group page permission) self.now.grants }
    {
        let grant = Grant {
            page,
            group,
            permission,
        };
        find(&self.grants, &grant).is_ok()
    }

    /// The grant at a place, rising by page, group and permission, or `None` exactly at or past
    /// their number.
    pub fn grant_at(&self, place: usize) -> Option<(PageId, GroupId, Permission)>
        ensures { result ≡ option_map (λ grant. (grant.page, grant.group, grant.permission))
            (slice_get self.now.grants place) }
    {
        triple_at(&self.grants, place)
    }

    /// The number of grants.
    pub fn grant_count(&self) -> usize
        ensures { result ≡ length self.now.grants }
    {
        self.grants.len()
    }
}

/// Puts a grant in or takes it out, where it is not so already.
fn set(grants: &mut Vec<Grant>, grant: Grant, on: bool)
    requires rise { KeysRise grant_key grants.old.items }
    requires room { vec_len grants.old < vec_capacity grants.old }
    ensures items { grants.new.items
        ≡ grants_with grants.old.items grant.group grant.page grant.permission on }
    ensures rise { KeysRise grant_key grants.new.items }
    ensures len { vec_len grants.new ≤ vec_len grants.old + 1 }
    ensures capacity { vec_capacity grants.old ≤ vec_capacity grants.new }
{
    match find(grants, &grant) {
        Ok(place) => {
            if !on {
                grants.remove(place);
            }
        }
        Err(place) => {
            if on {
                put(grants, place, grant);
            }
        }
    }
}

/// Takes all grants at a page out.
fn cut_page(grants: &mut Vec<Grant>, page: PageId)
    requires { KeysRise grant_key grants.old.items }
    ensures items { grants.new.items ≡ filter (λ grant. not (grant.page == page)) grants.old.items }
    ensures rise { KeysRise grant_key grants.new.items }
    ensures len { vec_len grants.new ≤ vec_len grants.old }
    ensures capacity { vec_capacity grants.old ≤ vec_capacity grants.new }
{
    let (start, end) = page_range(grants, page);
    cut(grants, start, end);
}

/// The place of the first grant at a page, and the place behind the last.
fn page_range(grants: &[Grant], page: PageId) -> (usize, usize)
    requires { KeysRise grant_key grants.now }
    ensures start { result.0 ≡ place_of grant_key (page ∷ 0 ∷ 0 ∷ []) grants.now }
    ensures end { result.1 ≡ place_of grant_key ((page + 1) ∷ 0 ∷ 0 ∷ []) grants.now }
    ensures ordered { result.0 ≤ result.1 }
    ensures within { result.1 ≤ length grants.now }
{
    let number = page.get();
    let start = place_at(grants, number, 0, 0);
    let end = place_at(grants, number + 1, 0, 0);
    (start, end)
}

/// The place of a grant, or the place that it would take.
fn find(grants: &[Grant], grant: &Grant) -> Result<usize, usize>
    requires { KeysRise grant_key grants.now }
    ensures { result ≡ search_told grant_key (grant_key grant.now)
        (is_grant grant.now.group grant.now.page grant.now.permission) grants.now }
{
    let place = place_at(
        grants,
        grant.page.get(),
        grant.group.get(),
        number(grant.permission),
    );
    if is_at(grants, place, grant) {
        Ok(place)
    } else {
        Err(place)
    }
}

/// The number of grants that come before one at this page, to this group, of this permission.
fn place_at(grants: &[Grant], page: u32, group: u32, permission: u8) -> usize
    requires { KeysRise grant_key grants.now }
    ensures { result ≡ place_of grant_key (page ∷ group ∷ permission ∷ []) grants.now }
{
    grants.partition_point(|grant| is_before(grant, page, group, permission))
}

/// Whether a grant comes before one at this page, to this group, of this permission.
fn is_before(grant: &Grant, page: u32, group: u32, permission: u8) -> bool
    ensures { result ≡ comes_before (grant_key grant.now) (page ∷ group ∷ permission ∷ []) }
{
    let own = (
        grant.page.get(),
        grant.group.get(),
        number(grant.permission),
    );
    if own.0 != page {
        own.0 < page
    } else if own.1 != group {
        own.1 < group
    } else {
        own.2 < permission
    }
}

/// Whether the grant stands at the place.
fn is_at(grants: &[Grant], place: usize, grant: &Grant) -> bool
    ensures { result ≡ passes (is_grant grant.now.group grant.now.page grant.now.permission)
        (slice_get grants.now place) }
{
    match grants.get(place) {
        Some(other) => is_same(other, grant),
        None => false,
    }
}

/// Whether two grants are the same.
fn is_same(other: &Grant, grant: &Grant) -> bool
    ensures { result ≡ is_grant grant.now.group grant.now.page grant.now.permission other.now }
{
    other.page == grant.page
        && other.group == grant.group
        && number(other.permission) == number(grant.permission)
}

/// The number of a permission, from 1 to 6.
pub fn number(permission: Permission) -> u8
    ensures { result ≡ permission_number permission }
{
    match permission {
        Permission::Add => 1,
        Permission::Change => 2,
        Permission::Publish => 3,
        Permission::BulkDelete => 4,
        Permission::Lock => 5,
        Permission::Unlock => 6,
    }
}

/// The grant at a place, or `None` exactly at or past their number.
fn triple_at(grants: &[Grant], place: usize) -> Option<(PageId, GroupId, Permission)>
    ensures { result ≡ option_map (λ grant. (grant.page, grant.group, grant.permission))
        (slice_get grants.now place) }
{
    match grants.get(place) {
        Some(grant) => Some((grant.page, grant.group, grant.permission)),
        None => None,
    }
}
