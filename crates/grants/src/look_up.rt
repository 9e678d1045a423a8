//! Looking users and groups up.
ghost use Rattle.std.specs.Prelude.{◌≡◌, ◌≤◌, length, slice_get};
ghost use Rattle.std.specs.Option.{option_map};
ghost use Rattle.sha2.specs.Sha256.{sha256};
ghost use Rattle.site_ids.specs.declared.ids.TheConstants.{LAST_USER_ID, LAST_GROUP_ID};
ghost use Rattle.site_model.specs.Rights.{user_at, user_of, is_super, is_superuser};

use crate::Grants;
use crate::digest::digest_of;
use site_types::{Digest, UserId, UserRow};

impl Grants {
    /// The number of users.
    pub fn user_count(&self) -> u32
        ensures value { result ≡ length self.now.users }
        ensures range { result ≤ LAST_USER_ID }
    {
        self.users.len() as u32
    }

    /// The number of groups.
    pub fn group_count(&self) -> u32
        ensures value { result ≡ self.now.groups }
        ensures range { result ≤ LAST_GROUP_ID }
    {
        self.groups
    }

    /// Whether the user is a superuser and the digest of the user's token, or `None` exactly where
    /// there is no such user.
    pub fn user(&self, user: UserId) -> Option<(bool, [u8; 32])>
        ensures { result ≡ option_map (λ row. (row.superuser, row.digest)) (user_at self.now.users user) }
    {
        match row_at(&self.users, user) {
            Some(row) => Some((row.superuser, row.digest.bytes())),
            None => None,
        }
    }

    /// Whether the user is a superuser. User 0, the scheduler, is one; an id that names no user is
    /// none.
    pub fn is_superuser(&self, user: UserId) -> bool
        ensures { result ≡ is_superuser self.now.users user }
    {
        user.get() == 0 || is_super(row_at(&self.users, user))
    }

    /// The user whose token has this digest, or `None` exactly where there is none. One look-up.
    pub fn user_with(&self, digest: &Digest) -> Option<UserId>
        ensures { result ≡ user_of digest.now self.now.users }
    {
        self.numbers.get(digest).copied()
    }

    /// The user of a token, by its SHA-256 digest (FIPS 180-4), or `None` exactly where there is
    /// none. It costs the digest of the token, and one look-up.
    pub fn user_of(&self, token: &[u8]) -> Option<UserId>
        ensures { result ≡ user_of (sha256 token.now) self.now.users }
    {
        self.user_with(&digest_of(token))
    }
}

/// The row of a user, or `None` exactly where there is no such user.
fn row_at(users: &[UserRow], user: UserId) -> Option<UserRow>
    ensures { result ≡ user_at users.now user }
{
    let number = user.get() as usize;
    if number == 0 {
        return None;
    }
    row_in(users, number - 1)
}

/// The row at a place, or `None` exactly at or past their number.
fn row_in(users: &[UserRow], place: usize) -> Option<UserRow>
    ensures { result ≡ slice_get users.now place }
{
    users.get(place).copied()
}

/// Whether there is a user, who is a superuser.
fn is_super(row: Option<UserRow>) -> bool
    ensures { result ≡ is_super row }
{
    match row {
        Some(row) => row.superuser,
        None => false,
    }
}
