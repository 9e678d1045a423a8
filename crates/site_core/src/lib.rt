//! The site in memory: each command is prepared with all its memory, and then committed.
#![tactic(auto)]

mod asking;
mod card;
mod desk_parts;
mod finding;
mod group;
mod kids;
mod linking;
mod part;
mod references;
mod showing;
mod state;
mod texts;

pub use part::prepare;
pub use part_commits::{Done, commit};
pub use state::Core;
