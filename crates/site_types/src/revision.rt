//! Revisions of pages.
use crate::Content;
use site_ids::{Moment, PageId, RevisionId, UserId};

/// One kept content of a page.
#[derive(Debug, Drop)]
pub struct Revision {
    /// The revision's number.
    pub id: RevisionId,
    /// The page whose revision it is.
    pub page: PageId,
    /// Who made it.
    pub by: UserId,
    /// When it was made.
    pub made: Moment,
    /// The content.
    pub content: Content,
    /// When it is to be published, if not at once.
    pub go_live: Option<Moment>,
    /// When the page is to stop being live, if ever.
    pub expire: Option<Moment>,
}
