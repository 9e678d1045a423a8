//! Commands.
use crate::{Content, Permission, Position};
use site_ids::{Digest, GroupId, Ids, Moment, PageId, Slug, UserId, WorkflowId};

/// What a caller may ask of the site: 29 commands, in the order of their tags from 1.
#[derive(Debug, Drop)]
pub enum Command {
    /// Adds a regular page after the kids of a page.
    Create {
        /// The page below which it is added.
        parent: PageId,
        /// The new page's slug, of 1 to 255 bytes.
        slug: Slug,
        /// The content of its first revision.
        content: Content,
    },
    /// Moves a page with its descendants.
    Move {
        /// The page that is moved.
        page: PageId,
        /// The page by which its new place is named.
        target: PageId,
        /// Where it comes to stand by the target.
        position: Position,
    },
    /// Deletes a page with its descendants.
    Delete {
        /// The page that is deleted.
        page: PageId,
    },
    /// Gives a page another slug.
    SetSlug {
        /// The page.
        page: PageId,
        /// Its new slug, of 1 to 255 bytes.
        slug: Slug,
    },
    /// Adds an alias of a page after the kids of a page.
    Alias {
        /// The page that the alias shows; an alias stands for its own source.
        source: PageId,
        /// The page below which the alias is added.
        parent: PageId,
        /// The alias's slug, of 1 to 255 bytes.
        slug: Slug,
    },
    /// Makes an alias a regular page.
    Detach {
        /// The alias.
        page: PageId,
    },
    /// Copies a page after the kids of a page.
    Copy {
        /// The page that is copied.
        page: PageId,
        /// The page below which the copy is added.
        parent: PageId,
        /// The copy's slug, of 1 to 255 bytes.
        slug: Slug,
        /// Whether the descendants are copied too.
        deep: bool,
    },
    /// Opens a desk: the caller's working text of a page.
    OpenDesk {
        /// The page.
        page: PageId,
    },
    /// Replaces the text of the caller's desk.
    SaveDesk {
        /// The page.
        page: PageId,
        /// The new text.
        content: Content,
    },
    /// Gives the caller's desk up with its text.
    ShutDesk {
        /// The page.
        page: PageId,
    },
    /// Makes the text of the caller's desk the newest revision.
    File {
        /// The page.
        page: PageId,
        /// When the revision is to be published, if not at once.
        go_live: Option<Moment>,
        /// When the page is to stop being live, if ever.
        expire: Option<Moment>,
    },
    /// Publishes the newest revision, or schedules it.
    Publish {
        /// The page.
        page: PageId,
    },
    /// Takes a page out of the public, and empties its schedule.
    Unpublish {
        /// The page.
        page: PageId,
    },
    /// Empties the schedule of a page.
    Unschedule {
        /// The page.
        page: PageId,
    },
    /// Locks a page for the caller.
    Lock {
        /// The page.
        page: PageId,
    },
    /// Unlocks a page.
    Unlock {
        /// The page.
        page: PageId,
    },
    /// Removes the revisions of a page that nothing needs.
    Purge {
        /// The page.
        page: PageId,
    },
    /// Defines a task of moderation.
    DefineTask {
        /// The groups whose members may answer it: 1 to 16 distinct numbers, rising.
        groups: Ids,
    },
    /// Defines a workflow.
    DefineWorkflow {
        /// Its tasks in order: 1 to 16 numbers, repeats allowed.
        tasks: Ids,
    },
    /// Gives a page a workflow of its own, or takes it away.
    Assign {
        /// The page.
        page: PageId,
        /// The workflow, or none.
        workflow: Option<WorkflowId>,
    },
    /// Submits the newest revision for moderation.
    Submit {
        /// The page.
        page: PageId,
    },
    /// Approves the current task of a moderation.
    Approve {
        /// The page.
        page: PageId,
    },
    /// Rejects the current task of a moderation.
    Reject {
        /// The page.
        page: PageId,
    },
    /// Gives a moderation up.
    Cancel {
        /// The page.
        page: PageId,
    },
    /// Defines a user.
    DefineUser {
        /// Whether the user holds every permission everywhere.
        superuser: bool,
        /// The digest of the user's token.
        digest: Digest,
    },
    /// Defines a group without members.
    DefineGroup,
    /// Puts a user into a group, or takes the user out.
    Member {
        /// The user.
        user: UserId,
        /// The group.
        group: GroupId,
        /// Whether the user is to be a member.
        on: bool,
    },
    /// Grants a permission at a page to a group, or takes it away.
    Grant {
        /// The group.
        group: GroupId,
        /// The page.
        page: PageId,
        /// The permission.
        permission: Permission,
        /// Whether the grant is to stand.
        on: bool,
    },
    /// Ends what has expired, and publishes what is scheduled and due.
    Tick,
}
