//! The rows of a whole world.
use crate::{Content, PageRow, Permission, Revision};
use site_ids::{Digest, GroupId, Ids, Items, Moment, PageId, UserId};

/// A user, whose number is the place in the list, counted from 1.
#[derive(Clone, Copy, Debug, PartialEq, Eq)]
pub struct UserRow {
    /// Whether the user holds every permission everywhere.
    pub superuser: bool,
    /// The digest of the user's token.
    pub digest: Digest,
}

/// That a user is a member of a group.
#[derive(Clone, Copy, Debug, PartialEq, Eq)]
pub struct Member {
    /// The user.
    pub user: UserId,
    /// The group.
    pub group: GroupId,
}

/// That a group has a permission at a page and below it.
#[derive(Clone, Copy, Debug, PartialEq, Eq)]
pub struct Grant {
    /// The page.
    pub page: PageId,
    /// The group.
    pub group: GroupId,
    /// The permission.
    pub permission: Permission,
}

/// An open desk: one user's working text of one page.
#[derive(Debug, Drop)]
pub struct DeskRow {
    /// The page.
    pub page: PageId,
    /// The user.
    pub user: UserId,
    /// The text.
    pub content: Content,
}

/// A whole world as flat rows. Pages stand in the order of their paths, the other lists rise by
/// number, by pair or by triple.
#[derive(Debug, Drop)]
pub struct WorldRows {
    /// The world's time.
    pub time: Moment,
    /// The number of the next page, from 2 to 1,000,001.
    pub next_page: u32,
    /// The number of the next revision, from 1 to 4,000,000,001.
    pub next_revision: u32,
    /// The number of the next user, from 1 to 65,536.
    pub next_user: u32,
    /// The number of the next group, from 1 to 65,536.
    pub next_group: u32,
    /// The number of the next task, from 1 to 65,536.
    pub next_task: u32,
    /// The number of the next workflow, from 1 to 65,536.
    pub next_workflow: u32,
    /// The users from 1.
    pub users: Items<UserRow>,
    /// The groups of each task from 1, rising.
    pub tasks: Items<Ids>,
    /// The tasks of each workflow from 1, in order.
    pub workflows: Items<Ids>,
    /// The memberships, rising by user and group.
    pub members: Items<Member>,
    /// The grants, rising by page, group and permission.
    pub grants: Items<Grant>,
    /// The pages, in the order of their paths.
    pub pages: Items<PageRow>,
    /// The revisions, rising.
    pub revisions: Items<Revision>,
    /// The open desks, rising by page.
    pub desks: Items<DeskRow>,
}
