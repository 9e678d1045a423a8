//! The users, groups, memberships and grants, as they are kept.
use indexmap::IndexMap;
use site_types::{Digest, Grant, Member, UserId, UserRow};
use std::marker::Model;

/// The users and groups of a site, who is a member of which, and what is granted to groups.
///
/// Users are found by number and by the digest of their token. Memberships and grants stand in
/// their order, so that a user's groups and a page's grants are found by a search of as many steps
/// as their number has binary digits. A membership takes eight bytes, a grant twelve.
#[derive(Debug, Drop)]
pub struct Grants {
    pub(crate) users: Vec<UserRow>,
    pub(crate) numbers: IndexMap<Digest, UserId>,
    pub(crate) groups: u32,
    pub(crate) members: Vec<Member>,
    pub(crate) grants: Vec<Grant>,
}

impl Model for Grants {
    ghost use Rattle.std.specs.Prelude.{◌-◌, min, vec_len, vec_capacity};
    ghost use Rattle.indexmap.specs.IndexMap.{spare};
    ghost use Rattle.grants.specs.Lists.{GrantLists};
    ghost use Rattle.grants.specs.Kept.{IsKept};

    ghost Value = { GrantLists };

    ghost view = { λ grants. record {
      users = grants.users.items;
      groups = grants.groups;
      members = grants.members.items;
      grants = grants.grants.items;
      spare = min (min (vec_capacity grants.users - vec_len grants.users) (spare grants.numbers))
          (min (vec_capacity grants.members - vec_len grants.members)
          (vec_capacity grants.grants - vec_len grants.grants));
    } };

    ghost invariant = { λ grants. IsKept grants.users.items grants.numbers.entries grants.groups
        grants.members.items grants.grants.items };
}
