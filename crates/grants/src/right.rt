//! What a user holds at a page.
ghost use Rattle.std.specs.Prelude.{◌≡◌, ◌==◌, ◌&&◌, [], ◌∷◌, IsSome, map};
ghost use Rattle.std.specs.List.{list_any};
ghost use Rattle.page_tree.specs.Tree.{Forest};
ghost use Rattle.page_tree.specs.Rows.{rows_of, row_with};
ghost use Rattle.page_tree.specs.Walk.{walk};
ghost use Rattle.site_types.specs.declared.body.Body.{Body as PageBody};
ghost use Rattle.site_model.specs.World.{TreePart};
ghost use Rattle.site_model.specs.Rights.{held, gives, is_same, groups_of};
ghost use Rattle.site_model.specs.Users.{grant_key};
ghost use Rattle.site_model.specs.Sound.{KeysRise};
ghost use Rattle.grants.specs.Granted.{held_where, held_either, group_key, gives_any, is_held, seen_held};
ghost use Rattle.grants.specs.Lists.{ListsStandFor};

use crate::Grants;
use crate::spans::{grants_at, has_group, members_of};
use page_store::Rows;
use site_types::{Grant, Member, PageId, Permission, UserId};

/// The permissions that a user holds at a page.
#[derive(Clone, Copy, Debug, PartialEq, Eq)]
pub struct Held {
    /// To add pages below the page.
    pub add: bool,
    /// To edit the page.
    pub change: bool,
    /// To publish and unpublish it.
    pub publish: bool,
    /// To delete it though it has kids.
    pub bulk_delete: bool,
    /// To lock it.
    pub lock: bool,
    /// To unlock it.
    pub unlock: bool,
}

/// Every permission.
const EVERYTHING: Held = Held {
    add: true,
    change: true,
    publish: true,
    bulk_delete: true,
    lock: true,
    unlock: true,
};

/// No permission.
const NOTHING: Held = Held {
    add: false,
    change: false,
    publish: false,
    bulk_delete: false,
    lock: false,
    unlock: false,
};

impl Grants {
    /// What a user holds at a page: all for a superuser, and else what was granted, at that page or
    /// at a page above it, to a group of the user (Wagtail, page permissions).
    ///
    /// For each page from this one up to the root it searches the page's grants, in as many steps as the
    /// number of grants has binary digits, and looks for the group of each among the user's groups, in as
    /// many steps as the number of these has.
    pub fn held(&self, rows: &Rows, user: UserId, page: PageId) -> Held
        requires { IsSome (row_with page rows.now.pages) }
        ensures { (part : TreePart) → rows.now.pages ≡ rows_of part.tree
            → ListsStandFor self.now part → seen_held result ≡ held part user page }
    {
        if self.is_superuser(user) {
            return EVERYTHING;
        }
        let own = members_of(self.members.as_slice(), user);
        granted_up(rows, self.grants.as_slice(), own, page)
    }

    /// What is granted to a user's groups at a page itself.
    pub fn granted_here(&self, user: UserId, page: PageId) -> Held
        ensures { result ≡ held_where (λ permission. list_any
            (gives (groups_of self.now.members user) permission page) self.now.grants) }
    {
        let own = members_of(self.members.as_slice(), user);
        granted_at(self.grants.as_slice(), own, page)
    }
}

/// What is granted to the groups of these memberships at a page or at a page above it.
fn granted_up(rows: &Rows, grants: &[Grant], members: &[Member], page: PageId) -> Held
    requires there { IsSome (row_with page rows.now.pages) }
    requires rise { KeysRise grant_key grants.now }
    requires groups { KeysRise group_key members.now }
    ensures { (tree : Forest PageBody) → rows.now.pages ≡ rows_of tree → result
        ≡ held_where (λ permission. list_any (λ visit. list_any
        (gives (map (λ member. member.group) members.now) permission visit.id) grants.now)
        (walk page tree)) }
{
    let _len = rows.len();
    let here = granted_at(grants, members, page);
    match rows.parent(page) {
        Some(parent) => either(granted_up(rows, grants, members, parent), here),
        None => here,
    }
}

/// What is granted to the groups of these memberships at a page itself.
fn granted_at(grants: &[Grant], members: &[Member], page: PageId) -> Held
    requires rise { KeysRise grant_key grants.now }
    requires groups { KeysRise group_key members.now }
    ensures { result ≡ held_where (λ permission. list_any
        (gives (map (λ member. member.group) members.now) permission page) grants.now) }
{
    granted_by(grants_at(grants, page), members)
}

/// What these grants give to the groups of these memberships: a search for each grant.
fn granted_by(grants: &[Grant], members: &[Member]) -> Held
    requires { KeysRise group_key members.now }
    ensures { result
        ≡ held_where (λ permission. list_any (gives_any members.now permission) grants.now) }
{
    let mut held = NOTHING;
    for grant in grants {
        held = either(held, given_by(grant, members));
    }
    held
}

/// What a grant gives to the groups of these memberships: its permission or nothing.
fn given_by(grant: &Grant, members: &[Member]) -> Held
    requires { KeysRise group_key members.now }
    ensures { result ≡ held_where (λ permission. gives_any members.now permission grant.now) }
{
    if has_group(members, grant.group.get()) {
        alone(grant.permission)
    } else {
        NOTHING
    }
}

/// One permission alone.
fn alone(permission: Permission) -> Held
    ensures { result ≡ held_where (is_same permission) }
{
    match permission {
        Permission::Add => Held {
            add: true,
            ..NOTHING
        },
        Permission::Change => Held {
            change: true,
            ..NOTHING
        },
        Permission::Publish => Held {
            publish: true,
            ..NOTHING
        },
        Permission::BulkDelete => Held {
            bulk_delete: true,
            ..NOTHING
        },
        Permission::Lock => Held {
            lock: true,
            ..NOTHING
        },
        Permission::Unlock => Held {
            unlock: true,
            ..NOTHING
        },
    }
}

/// What is held one way or the other.
fn either(one: Held, other: Held) -> Held
    ensures { result ≡ held_either one other }
{
    Held {
        add: one.add | other.add,
        change: one.change | other.change,
        publish: one.publish | other.publish,
        bulk_delete: one.bulk_delete | other.bulk_delete,
        lock: one.lock | other.lock,
        unlock: one.unlock | other.unlock,
    }
}

/// Whether a permission is among those that are held.
pub fn holds(held: Held, permission: Permission) -> bool
    ensures { result ≡ is_held held permission }
{
    match permission {
        Permission::Add => held.add,
        Permission::Change => held.change,
        Permission::Publish => held.publish,
        Permission::BulkDelete => held.bulk_delete,
        Permission::Lock => held.lock,
        Permission::Unlock => held.unlock,
    }
}
