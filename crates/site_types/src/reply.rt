//! Replies to accepted commands.
use crate::ModerationStatus;
use site_ids::{Ids, PageId, PathText, Url};

/// What an accepted command answers.
#[derive(Debug, Drop)]
pub enum Reply {
    /// A page was made or came to another place or slug.
    Page {
        /// The page.
        id: PageId,
        /// Its path now.
        path: PathText,
        /// Its URL now.
        url: Url,
    },
    /// It was done, and there is nothing to tell.
    Done,
    /// The number of what was made: a revision, a task, a workflow, a user or a group.
    Id(u32),
    /// A tick, with the pages of its three cases in the order of (moment, page).
    Ticked {
        /// The pages that expired.
        unpublished: Ids,
        /// The pages whose scheduled revision was published.
        published: Ids,
        /// The pages whose scheduled revision had expired and was dropped.
        dropped: Ids,
    },
    /// A moderation went on.
    Moderated {
        /// Its status now.
        status: ModerationStatus,
        /// The place of its task, counted from 1.
        task: u8,
    },
    /// A page was published or scheduled.
    Published {
        /// Whether it was only scheduled.
        scheduled: bool,
    },
    /// How many pages a deletion removed, or how many revisions a purge did.
    Removed(u32),
}
