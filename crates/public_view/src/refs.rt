//! References to pages.

/// The most pages that link to a page which are told: 1,000.
pub const MAX_REFS: usize = 1_000;
