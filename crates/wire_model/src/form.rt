//! The forms of commands: what the body of a request to a command's route is read as.

/// What the body of a request to a command's route is read as.
#[derive(Clone, Copy, Debug, PartialEq, Eq)]
pub enum CommandForm {
    /// The creation of a page: content, parent and slug.
    Create,
    /// A move of a page: page, position and target.
    Move,
    /// Another slug for a page: page and slug.
    SetSlug,
    /// An alias of a page: parent, slug and source.
    Alias,
    /// A copy of a page: deep, page, parent and slug.
    Copy,
    /// A command on a page that nothing else is named for: page.
    OnPage(PageVerb),
    /// The saving of the text at a desk: content and page.
    Save,
    /// The filing of the text at a desk: expire_at, go_live_at and page.
    File,
    /// The definition of a user: digest and superuser.
    DefineUser,
    /// The definition of a group: no members.
    DefineGroup,
    /// A membership that begins or ends: group, on and user.
    Member,
    /// A grant that is given or withdrawn: group, on, page and permission.
    Grant,
    /// A tick: no members.
    Tick,
    /// The definition of a task of moderation: groups.
    DefineTask,
    /// The definition of a workflow: tasks.
    DefineWorkflow,
    /// The workflow of a page, or its end: page and workflow.
    Assign,
}

/// The commands whose bodies name a page alone, `{"page":N}`.
#[derive(Clone, Copy, Debug, PartialEq, Eq)]
pub enum PageVerb {
    /// The page is deleted with its descendants.
    Delete,
    /// The page, an alias, becomes a regular page.
    Detach,
    /// The caller opens a desk on the page.
    OpenDesk,
    /// The caller's desk on the page is given up.
    ShutDesk,
    /// The newest revision of the page is published, or scheduled.
    Publish,
    /// The page is taken out of the public.
    Unpublish,
    /// The schedule of the page is emptied.
    Unschedule,
    /// The page is locked for the caller.
    Lock,
    /// The page is unlocked.
    Unlock,
    /// The revisions of the page go that nothing needs.
    Purge,
    /// The newest revision of the page is submitted for moderation.
    Submit,
    /// The current task of the page's moderation is approved.
    Approve,
    /// The current task of the page's moderation is rejected.
    Reject,
    /// The page's moderation is given up.
    Cancel,
}

/// What is read of the page that the last part of a path names.
#[derive(Clone, Copy, Debug, PartialEq, Eq)]
pub enum ReadForm {
    /// The card of the page.
    Card,
    /// The pages that link to the page.
    Refs,
    /// The caller's desk on the page.
    Desk,
}
