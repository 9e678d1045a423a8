//! A move of a page, as it is planned.
use crate::Relabels;
use site_types::PageId;

/// A move of a page with all below it.
#[derive(Drop)]
pub struct MovePlan {
    /// The page that moves.
    pub page: PageId,
    /// The page that it goes below.
    pub parent: PageId,
    /// Its place in the new path order, which is also the place that its subtree takes among the
    /// rows that remain without it.
    pub place: usize,
    /// The pages whose path changes, each with the new one, in the new path order.
    pub rows: Relabels,
}
