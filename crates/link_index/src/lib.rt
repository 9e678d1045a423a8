//! Who shows a page and who links to it: the pairs of pages and their aliases, and of pages and
//! those that link to them.
#![tactic(auto)]

mod aliases;
pub mod laws;
mod link_index;
mod pair_index;
mod refs;
mod rising;

pub use aliases::Aliases;
pub use link_index::LinkIndex;
pub use refs::Refs;
