//! The JSON form of a page's content, and the words for the members of JSON objects (RFC 8259).
//! Definitions for proofs, laws about them, and the member names that they and the code share.
#![tactic(auto)]

pub mod laws;
mod words;

pub use words::{
    MEMBER_BLOCKS, MEMBER_HEADING, MEMBER_LIST, MEMBER_PAGE, MEMBER_PARAGRAPH, MEMBER_TITLE,
};
