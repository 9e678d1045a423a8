//! What becomes of each store.
ghost use Rattle.std.specs.Prelude.{◌≡◌, IfOk};
ghost use Rattle.flat_model.specs.Single.{tree_change, people_change, flow_change, body_change};

use page_store::{MovePlan, Urls};
use site_types::{
    Body, Digest, GroupId, Ids, Items, Moment, NoMemory, PageId, PageRow, Permission, Revision,
    RevisionId, Slug, Url, UserId,
};
use std::alloc::Global;

/// What becomes of each store of the tree part, in the order of the fields. It says nothing of the
/// command that it comes from.
#[derive(Drop)]
pub struct Change {
    /// What becomes of the rows of pages.
    pub tree: TreeChange,
    /// The pages whose fields change, each with all fields that it has then.
    pub bodies: Items<(PageId, Body)>,
    /// The pages whose revisions and grants go.
    pub gone: Ids,
    /// The revisions of one page that go, but for those that it needs.
    pub purge: Option<Purge>,
    /// The revisions that come, rising.
    pub revisions: Items<Revision>,
    /// What becomes of users, groups, memberships and grants.
    pub people: PeopleChange,
    /// What becomes of tasks and workflows.
    pub flows: FlowChange,
    /// The time then.
    pub time: Moment,
    /// The number of the next page then.
    pub next_page: u32,
    /// The number of the next revision then.
    pub next_revision: u32,
}

/// The revisions of a page go, but for these that it needs.
#[derive(Clone, Copy, Debug)]
pub struct Purge {
    /// The page.
    pub page: PageId,
    /// The revision that it shows.
    pub shown: Option<RevisionId>,
    /// Its latest revision.
    pub latest: Option<RevisionId>,
    /// The revision that is scheduled.
    pub scheduled: Option<RevisionId>,
    /// The revision that is moderated.
    pub moderated: Option<RevisionId>,
}

/// What becomes of the rows of pages.
#[derive(Drop)]
pub enum TreeChange {
    /// Nothing.
    Nothing,
    /// Pages come.
    Insert {
        /// Their rows, which have no kids, each with its URL; a page comes after its parent.
        rows: Items<(PageRow, Url)>,
    },
    /// A page moves with all below it.
    Move {
        /// Where it goes, and the pages whose path changes.
        plan: MovePlan,
        /// The pages whose URL changes, each with the new one.
        urls: Urls,
    },
    /// A page goes with all below it.
    Delete {
        /// The page.
        page: PageId,
    },
    /// A page gets another slug.
    Rename {
        /// The page.
        page: PageId,
        /// Its new slug.
        slug: Slug,
        /// The pages whose URL changes, each with the new one.
        urls: Urls,
    },
}

/// What becomes of users, groups, memberships and grants.
#[derive(Drop)]
pub enum PeopleChange {
    /// Nothing.
    Nothing,
    /// A user comes.
    User {
        /// Whether the user is a superuser.
        superuser: bool,
        /// The digest of the user's token.
        digest: Digest,
    },
    /// A group comes.
    Group,
    /// A user becomes a member of a group, or is none any more.
    Member {
        /// The user.
        user: UserId,
        /// The group.
        group: GroupId,
        /// Whether the user is a member from now on.
        on: bool,
    },
    /// A permission is granted or withdrawn.
    Grant {
        /// The group.
        group: GroupId,
        /// The page.
        page: PageId,
        /// The permission.
        permission: Permission,
        /// Whether the group has it from now on.
        on: bool,
    },
}

/// What becomes of tasks and workflows: at most one comes, and none ever goes.
#[derive(Drop)]
pub enum FlowChange {
    /// Nothing.
    Nothing,
    /// A task comes.
    Task {
        /// Its groups, rising.
        groups: Ids,
    },
    /// A workflow comes.
    Workflow {
        /// Its tasks, in order.
        tasks: Ids,
    },
}

impl Change {
    /// A change of the rows of pages and of the time, with these next ids. It takes no memory.
    pub fn of_tree(
        alloc: Global,
        tree: TreeChange,
        time: Moment,
        next_page: u32,
        next_revision: u32,
    ) -> Change
        ensures { result ≡ tree_change tree time next_page next_revision }
    {
        Change {
            tree,
            bodies: Items::from_vec(Vec::new(alloc)),
            gone: Ids::from_vec(Vec::new(alloc)),
            purge: None,
            revisions: Items::from_vec(Vec::new(alloc)),
            people: PeopleChange::Nothing,
            flows: FlowChange::Nothing,
            time,
            next_page,
            next_revision,
        }
    }

    /// A change of users, groups, memberships and grants and of the time, with these next ids. It
    /// takes no memory.
    pub fn of_people(
        alloc: Global,
        people: PeopleChange,
        time: Moment,
        next_page: u32,
        next_revision: u32,
    ) -> Change
        ensures { result ≡ people_change people time next_page next_revision }
    {
        Change {
            tree: TreeChange::Nothing,
            bodies: Items::from_vec(Vec::new(alloc)),
            gone: Ids::from_vec(Vec::new(alloc)),
            purge: None,
            revisions: Items::from_vec(Vec::new(alloc)),
            people,
            flows: FlowChange::Nothing,
            time,
            next_page,
            next_revision,
        }
    }

    /// A change of tasks and workflows and of the time, with these next ids. It takes no memory.
    pub fn of_flows(
        alloc: Global,
        flows: FlowChange,
        time: Moment,
        next_page: u32,
        next_revision: u32,
    ) -> Change
        ensures { result ≡ flow_change flows time next_page next_revision }
    {
        Change {
            tree: TreeChange::Nothing,
            bodies: Items::from_vec(Vec::new(alloc)),
            gone: Ids::from_vec(Vec::new(alloc)),
            purge: None,
            revisions: Items::from_vec(Vec::new(alloc)),
            people: PeopleChange::Nothing,
            flows,
            time,
            next_page,
            next_revision,
        }
    }

    /// A change of the fields of one page and of the time, with these next ids.
    pub fn of_body(
        alloc: Global,
        page: PageId,
        body: Body,
        time: Moment,
        next_page: u32,
        next_revision: u32,
    ) -> Result<Change, NoMemory>
        ensures { IfOk result (λ change. change ≡ body_change page body time next_page next_revision) }
    {
        let mut bodies = Vec::with_capacity(alloc, 1)?;
        bodies.push((page, body))?;
        let mut change = Change::of_tree(
            alloc,
            TreeChange::Nothing,
            time,
            next_page,
            next_revision,
        );
        change.bodies = Items::from_vec(bodies);
        Ok(change)
    }
}
