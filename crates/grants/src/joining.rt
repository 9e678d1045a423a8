//! Memberships.
ghost use Rattle.std.specs.Prelude.{◌≡◌, ◌==◌, ◌+◌, ◌<◌, ◌≤◌, [], ◌∷◌, slice_get, vec_len, vec_capacity};
ghost use Rattle.std.specs.Option.{option_map};
ghost use Rattle.std.specs.List.{list_any};
ghost use Rattle.page_tree.specs.Rows.{comes_before};
ghost use Rattle.site_model.specs.Rights as rights;
ghost use Rattle.site_model.specs.Users.{member_key, is_membership};
ghost use Rattle.site_model.specs.Sound.{KeysRise};
ghost use Rattle.flat_model.specs.People.{members_with};
ghost use Rattle.desk_pairs.specs.Places.{place_of, search_told, passes};
ghost use Rattle.grants.specs.Granted.{group_key};

use crate::Grants;
use crate::places::put;
use crate::spans::{has_group, members_of};
use site_types::{GroupId, Member, UserId};

impl Grants {
    /// Makes a user a member of a group, or no member. Where it is so already nothing changes.
    ///
    /// It costs a search of as many steps as the number of memberships has binary digits, and moves
    /// eight bytes for each membership behind.
    pub fn set_member(&mut self, user: UserId, group: GroupId, on: bool)
        requires spare { 1 ≤ self.old.spare }
        ensures users { self.new.users ≡ self.old.users }
        ensures groups { self.new.groups ≡ self.old.groups }
        ensures members { self.new.members ≡ members_with self.old.members user group on }
        ensures grants { self.new.grants ≡ self.old.grants }
        ensures spare { self.old.spare ≤ self.new.spare + 1 }
    {
        set(&mut self.members, user, group, on);
    }

    /// Whether the user is a member of the group. One search.
    pub fn is_member(&self, user: UserId, group: GroupId) -> bool
        ensures { result ≡ list_any (is_membership user group) self.now.members }
    {
        find(&self.members, user, group).is_ok()
    }

    /// Whether a user is a member of one of these groups. A search for each of them.
    pub fn is_in_any(&self, user: UserId, groups: &[u32]) -> bool
        ensures { result ≡ list_any (λ own. rights.has_group groups.now own)
            (rights.groups_of self.now.members user) }
    {
        has_any(members_of(self.members.as_slice(), user), groups)
    }

    /// The membership at a place, rising by user and group, or `None` exactly at or past their
    /// number.
    pub fn member_at(&self, place: usize) -> Option<(UserId, GroupId)>
        ensures { result ≡ option_map (λ member. (member.user, member.group))
            (slice_get self.now.members place) }
    {
        pair_at(&self.members, place)
    }
}

/// Puts a membership in or takes it out, where it is not so already.
fn set(members: &mut Vec<Member>, user: UserId, group: GroupId, on: bool)
    requires rise { KeysRise member_key members.old.items }
    requires room { vec_len members.old < vec_capacity members.old }
    ensures items { members.new.items ≡ members_with members.old.items user group on }
    ensures rise { KeysRise member_key members.new.items }
    ensures len { vec_len members.new ≤ vec_len members.old + 1 }
    ensures capacity { vec_capacity members.old ≤ vec_capacity members.new }
{
    match find(members, user, group) {
        Ok(place) => {
            if !on {
                members.remove(place);
            }
        }
        Err(place) => {
            if on {
                put(members, place, Member { user, group });
            }
        }
    }
}

/// The place of a membership, or the place that it would take.
fn find(members: &[Member], user: UserId, group: GroupId) -> Result<usize, usize>
    requires { KeysRise member_key members.now }
    ensures { result
        ≡ search_told member_key (user ∷ group ∷ []) (is_membership user group) members.now }
{
    let place = place_at(members, user, group);
    if is_at(members, place, user, group) {
        Ok(place)
    } else {
        Err(place)
    }
}

/// The number of memberships that come before one of this user in this group.
fn place_at(members: &[Member], user: UserId, group: GroupId) -> usize
    requires { KeysRise member_key members.now }
    ensures { result ≡ place_of member_key (user ∷ group ∷ []) members.now }
{
    members.partition_point(|member| is_before(member, user, group))
}

/// Whether a membership comes before one of this user in this group.
fn is_before(member: &Member, user: UserId, group: GroupId) -> bool
    ensures { result ≡ comes_before (member_key member.now) (user ∷ group ∷ []) }
{
    let (own, other) = (member.user.get(), user.get());
    if own == other {
        member.group.get() < group.get()
    } else {
        own < other
    }
}

/// Whether the membership stands at the place.
fn is_at(members: &[Member], place: usize, user: UserId, group: GroupId) -> bool
    ensures { result ≡ passes (is_membership user group) (slice_get members.now place) }
{
    match members.get(place) {
        Some(member) => member.user == user && member.group == group,
        None => false,
    }
}

/// The membership at a place, or `None` exactly at or past their number.
fn pair_at(members: &[Member], place: usize) -> Option<(UserId, GroupId)>
    ensures { result
        ≡ option_map (λ member. (member.user, member.group)) (slice_get members.now place) }
{
    match members.get(place) {
        Some(member) => Some((member.user, member.group)),
        None => None,
    }
}

/// Whether one of the memberships, which rise by group, is in one of these groups.
fn has_any(members: &[Member], groups: &[u32]) -> bool
    requires { KeysRise group_key members.now }
    ensures { result
        ≡ list_any (λ id. list_any (λ member. member.group == id) members.now) groups.now }
{
    for group in groups {
        if has_group(members, *group) {
            return true;
        }
    }
    false
}
