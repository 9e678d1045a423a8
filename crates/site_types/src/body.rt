//! What a page's row says beside its place in the tree.
use crate::Moderation;
use site_ids::{Moment, PageId, RevisionId, UserId, WorkflowId};

/// The fields of a page beside its place in the tree and its slug.
#[derive(Clone, Copy, Debug, PartialEq, Eq)]
pub struct Body {
    /// Who owns the page: who made it, or user 0 for the root.
    pub owner: UserId,
    /// The page that an alias shows; an alias alone has one.
    pub source: Option<PageId>,
    /// Whether a regular page is live; false in the row of an alias.
    pub live: bool,
    /// Whether a regular page stopped being live by its expiry; false in the row of an alias.
    pub expired: bool,
    /// The revision whose content is the live content; a page that was never published shows its
    /// first. None for the root and for an alias.
    pub shown: Option<RevisionId>,
    /// The newest revision. None for the root and for an alias.
    pub latest: Option<RevisionId>,
    /// The revision that waits for its go-live moment, if there is one.
    pub scheduled: Option<RevisionId>,
    /// When the page was first published, if it was.
    pub first_published: Option<Moment>,
    /// When the page was last published, if it was.
    pub last_published: Option<Moment>,
    /// Who has locked the page, if anyone has.
    pub locked_by: Option<UserId>,
    /// The workflow of the page and of those below it, if it has one of its own.
    pub workflow: Option<WorkflowId>,
    /// The page's moderation, whatever its status, if there was one.
    pub moderation: Option<Moderation>,
}
