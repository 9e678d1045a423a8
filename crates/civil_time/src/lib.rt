//! The text of a moment: the civil second in UTC that stands so many seconds after
//! 1970-01-01T00:00:00Z (ISO 8601; RFC 3339, section 5.6). Definitions for proofs, laws, and the
//! years that they and the code share.
#![tactic(auto)]

pub mod laws;
mod years;

pub use years::{FIRST_YEAR, LAST_YEAR};
