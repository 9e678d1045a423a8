//! Where in their order the memberships of a user and the grants at a page stand.
ghost use Rattle.std.specs.Prelude.{◌≡◌, ◌==◌, [], ◌∷◌, filter, slice_get};
ghost use Rattle.std.specs.List.{list_any};
ghost use Rattle.site_model.specs.Sound.{KeysRise};
ghost use Rattle.site_model.specs.Users.{member_key, grant_key};
ghost use Rattle.desk_pairs.specs.Places.{place_of, passes};
ghost use Rattle.grants.specs.Granted.{group_key};

use site_types::{Grant, Member, PageId, UserId};

/// The memberships of a user. Two searches.
pub(crate) fn members_of(members: &[Member], user: UserId) -> &[Member]
    requires { KeysRise member_key members.now }
    ensures value { result.now ≡ filter (λ member. member.user == user) members.now }
    ensures groups { KeysRise group_key result.now }
{
    let start = members.partition_point(|member| member.user < user);
    let rest = &members[start..];
    let end = rest.partition_point(|member| member.user <= user);
    &rest[..end]
}

/// Whether one of the memberships, which rise by group, is in the group with this number. One search.
pub(crate) fn has_group(members: &[Member], group: u32) -> bool
    requires { KeysRise group_key members.now }
    ensures { result ≡ list_any (λ member. member.group == group) members.now }
{
    is_in(members, place_of_group(members, group), group)
}

/// The number of memberships in groups before this one.
fn place_of_group(members: &[Member], group: u32) -> usize
    requires { KeysRise group_key members.now }
    ensures { result ≡ place_of group_key (group ∷ []) members.now }
{
    members.partition_point(|member| member.group.get() < group)
}

/// Whether the membership at a place is in the group.
fn is_in(members: &[Member], place: usize, group: u32) -> bool
    ensures { result ≡ passes (λ member. member.group == group) (slice_get members.now place) }
{
    match members.get(place) {
        Some(member) => member.group.get() == group,
        None => false,
    }
}

/// The grants at a page. Two searches.
pub(crate) fn grants_at(grants: &[Grant], page: PageId) -> &[Grant]
    requires { KeysRise grant_key grants.now }
    ensures { result.now ≡ filter (λ grant. grant.page == page) grants.now }
{
    let start = grants.partition_point(|grant| grant.page < page);
    let rest = &grants[start..];
    let end = rest.partition_point(|grant| grant.page <= page);
    &rest[..end]
}
