//! Why a page cannot have the URL that it is asked to have.
use site_types::PageId;

/// Why a page cannot have the URL that it is asked to have.
#[derive(Clone, Copy, Debug, PartialEq, Eq)]
pub enum UrlFault {
    /// Another page below the parent has the slug.
    Taken(PageId),
    /// A URL would have more than 8,192 bytes.
    TooLong,
    /// Memory ran out.
    Memory,
}
