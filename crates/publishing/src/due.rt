//! What a tick does.
ghost use Rattle.std.specs.Prelude.{◌≡◌, ◌==◌, ◌&&◌, length};

use site_types::Ids;

/// The pages that a tick changes, each list in the order of its moments and then of the pages.
///
/// A page may stop being live and have a schedule whose moment has come: it stands in two lists.
#[derive(Drop)]
pub struct TickPlan {
    /// The live pages that stop being live.
    pub unpublished: Ids,
    /// The pages whose scheduled revision is published.
    pub published: Ids,
    /// The pages whose scheduled revision is dropped, since it has expired.
    pub dropped: Ids,
}

impl TickPlan {
    /// Whether nothing is due.
    pub fn is_idle(&self) -> bool
        ensures { result ≡ ((length self.now.unpublished == 0)
            && ((length self.now.published == 0) && (length self.now.dropped == 0))) }
    {
        self.unpublished.is_empty() && (self.published.is_empty() && self.dropped.is_empty())
    }
}
