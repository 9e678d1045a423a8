//! An empty store, making room, and defining users and groups.
ghost use Rattle.std.specs.Prelude.{◌≡◌, ℕ, ◌+◌, ◌<◌, ◌≤◌, Some, None, List, [], ◌∷◌, ◌++◌, length};
ghost use Rattle.std.specs.Prelude.{bytes_eq, if◌then◌else◌};
ghost use Rattle.std.specs.Prelude.{OnOk, vec_len, vec_capacity};
ghost use Rattle.std.specs.Map.{lookup};
ghost use Rattle.indexmap.specs.IndexMap.{spare};
ghost use Rattle.site_ids.specs.declared.ids.TheConstants.{LAST_USER_ID, LAST_GROUP_ID};
ghost use Rattle.site_model.specs.Rights.{user_of};
ghost use Rattle.grants.specs.Lists.{SameLists};

use crate::Grants;
use indexmap::IndexMap;
use site_types::{Digest, GroupId, NoMemory, UserId, UserRow};
use std::alloc::Global;

impl Grants {
    /// No users and no groups. It takes no memory.
    pub fn new(alloc: Global) -> Grants
        ensures users { result.users ≡ [] }
        ensures groups { result.groups ≡ 0 }
        ensures members { result.members ≡ [] }
        ensures grants { result.grants ≡ [] }
        ensures spare { result.spare ≡ 0 }
    {
        Grants {
            users: Vec::new(alloc),
            numbers: IndexMap::new(alloc),
            groups: 0,
            members: Vec::new(alloc),
            grants: Vec::new(alloc),
        }
    }

    /// Makes room for `more` users, memberships and grants, so that as many calls that define or set
    /// one need no memory.
    ///
    /// It costs nothing where the room is there, and else a copy of what is kept.
    pub fn reserve(&mut self, more: usize) -> Result<(), NoMemory>
        ensures same { SameLists self.old self.new }
        ensures ok { OnOk result (more ≤ self.new.spare) }
        ensures spare { self.old.spare ≤ self.new.spare }
    {
        self.users.reserve(more)?;
        self.numbers.reserve(more)?;
        self.members.reserve(more)?;
        self.grants.reserve(more)?;
        Ok(())
    }

    /// Defines the next user, whose token has this digest. Two look-ups.
    pub fn define_user(&mut self, superuser: bool, digest: &Digest) -> UserId
        requires spare { 1 ≤ self.old.spare }
        requires left { length self.old.users < LAST_USER_ID }
        requires new { user_of digest.now self.old.users ≡ None }
        ensures id { result ≡ length self.old.users + 1 }
        ensures users { self.new.users
            ≡ self.old.users ++ record { superuser = superuser; digest = digest.now } ∷ [] }
        ensures groups { self.new.groups ≡ self.old.groups }
        ensures members { self.new.members ≡ self.old.members }
        ensures grants { self.new.grants ≡ self.old.grants }
        ensures spare { self.old.spare ≤ self.new.spare + 1 }
    {
        let id = user_with_number(self.users.len() + 1);
        let row = UserRow {
            superuser,
            digest: *digest,
        };
        push(&mut self.users, row);
        enter(&mut self.numbers, digest, id);
        id
    }

    /// Defines the next group.
    pub fn define_group(&mut self) -> GroupId
        requires left { self.old.groups < LAST_GROUP_ID }
        ensures id { result ≡ self.old.groups + 1 }
        ensures users { self.new.users ≡ self.old.users }
        ensures groups { self.new.groups ≡ self.old.groups + 1 }
        ensures members { self.new.members ≡ self.old.members }
        ensures grants { self.new.grants ≡ self.old.grants }
        ensures spare { self.new.spare ≡ self.old.spare }
    {
        self.groups += 1;
        group_with_number(self.groups)
    }
}

/// The user with this number.
fn user_with_number(number: usize) -> UserId
    requires { number ≤ LAST_USER_ID }
    ensures { result ≡ number }
{
    match UserId::new(number as u32) {
        Some(id) => id,
        None => unreachable!(),
    }
}

/// The group with this number.
fn group_with_number(number: u32) -> GroupId
    requires first { 1 ≤ number }
    requires last { number ≤ LAST_GROUP_ID }
    ensures { result ≡ number }
{
    match GroupId::new(number) {
        Some(id) => id,
        None => unreachable!(),
    }
}

/// Puts a user at the end of a list that has room.
fn push(users: &mut Vec<UserRow>, row: UserRow)
    requires { vec_len users.old < vec_capacity users.old }
    ensures items { users.new.items ≡ users.old.items ++ row ∷ [] }
    ensures len { vec_len users.new ≡ vec_len users.old + 1 }
    ensures capacity { vec_capacity users.old ≤ vec_capacity users.new }
{
    match users.push(row) {
        Ok(()) => {}
        Err(_) => unreachable!(),
    }
}

/// Enters a user's number under a digest into a map that has room.
fn enter(numbers: &mut IndexMap<Digest, UserId>, digest: &Digest, id: UserId)
    requires { 0 < spare numbers.old }
    ensures found { (other : List ℕ) → lookup (bytes_eq other) numbers.new.entries
        ≡ (if bytes_eq digest.now other then Some id else lookup (bytes_eq other) numbers.old.entries) }
    ensures spare { spare numbers.old ≤ spare numbers.new + 1 }
{
    match numbers.insert(*digest, id) {
        Ok(_) => {}
        Err(_) => unreachable!(),
    }
}
