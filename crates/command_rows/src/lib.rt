//! What the first rules of each command look at, and what its caller needs: one row a command.
#![tactic(auto)]

pub mod laws;
mod needing;
mod row;

pub use needing::{NeedRow, need_row};
pub use row::{CommandRow, Named, Stops, row_of};
