//! The limits of a content.

/// The greatest length of a title in bytes; the least is 1.
pub const MAX_TITLE_BYTES: usize = 255;
/// The greatest number of blocks of a content.
pub const MAX_BLOCKS: usize = 1_000;
/// The greatest number of texts of a list block; the least is 1.
pub const MAX_LIST_TEXTS: usize = 1_000;
/// The greatest length of a content's byte form.
pub const MAX_CONTENT_BYTES: u32 = 65_536;
