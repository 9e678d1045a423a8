//! The commands of the program `pagetree`: a session over a site on a disk.
#![tactic(auto)]

mod answer;
pub mod laws;
mod options;
mod run;
mod session;
mod status;
mod words;

pub use options::Options;
pub use run::run_command;
pub use session::{ANSWER_LIMIT, CommandEnd};
pub use site_store::Disk;
pub use status::Status;
pub use words::Words;
