//! The names of the members of a content.

/// The blocks of a content, an array.
pub const MEMBER_BLOCKS: &str = "blocks";

/// The title of a content, a text.
pub const MEMBER_TITLE: &str = "title";

/// The text of a heading.
pub const MEMBER_HEADING: &str = "heading";

/// The text of a paragraph.
pub const MEMBER_PARAGRAPH: &str = "paragraph";

/// The texts of a list, an array.
pub const MEMBER_LIST: &str = "list";

/// The id of the page that a block links to, a number.
pub const MEMBER_PAGE: &str = "page";
