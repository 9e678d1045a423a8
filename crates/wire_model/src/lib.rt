//! What stands on the wire: the calls that requests ask for, the answers to them and their texts,
//! and transcripts. Definitions for proofs, laws about them, and the types and tables that they
//! and the code share.
#![tactic(auto)]

mod answer;
mod call;
mod form;
pub mod laws;
mod names;
mod routes;
mod words;

pub use answer::Answer;
pub use call::{Call, RouteFault};
pub use form::{CommandForm, PageVerb, ReadForm};
pub use names::{PERMISSIONS, POSITIONS};
pub use routes::{COMMAND_ROUTES, CommandRoute, READ_ROUTES, ReadRoute};
pub use words::{API, API_FRONT, MAX_ID_DIGITS, MAX_NAMED_IDS};
