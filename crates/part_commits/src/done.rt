//! What a commit answers.
use site_types::{Content, Ids, PageId, Reply, UserId};

/// What a command that was carried out answers, and what becomes of desks.
#[derive(Debug, Drop)]
pub struct Done {
    /// Its reply.
    pub reply: Reply,
    /// The desk that it opens: its page, its user and its text.
    pub opened: Option<(PageId, UserId, Content)>,
    /// The text that is saved: the page and the user of its desk, and the text.
    pub saved: Option<(PageId, UserId, Content)>,
    /// The pages whose desks end, rising.
    pub shut: Ids,
}
