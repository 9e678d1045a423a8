//! Steps, paths and their texts: the materialized paths of a page tree, and a count of work.
//!
//! The source is django-treebeard 4.7, MP_Node, with `steplen` 4 and the alphabet of 36 digits.
#![tactic(auto)]

pub mod laws;
mod order;
mod path;
mod step;
mod steps;

pub use order::{compare_texts, text_begins};
pub use path::{MAX_DEPTH, MAX_TEXT, Path};
pub use step::{LAST_STEP, STEP_TEXT, Step};
pub use steps::Steps;
