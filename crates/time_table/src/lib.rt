//! Moments: their texts, as people and programs exchange them, a civil second in UTC of the form
//! `YYYY-MM-DDTHH:MM:SSZ` (ISO 8601; RFC 3339, section 5.6); and tables of moments by page.
#![tactic(auto)]

mod change;
mod civil;
mod digits;
pub mod laws;
mod look_up;
mod order;
mod parts;
mod table;
mod text;
mod times;

pub use table::TimeTable;
pub use text::{print_time, read_time};
pub use times::Times;
