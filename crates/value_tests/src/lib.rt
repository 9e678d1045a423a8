//! Tests of the value crates: what their clauses leave open. Calls that take memory succeed when
//! there is enough, and texts from outside are read and written.
#![tactic(auto)]

#[cfg(test)]
mod contents;
#[cfg(test)]
mod lists;
#[cfg(test)]
mod paths;
#[cfg(test)]
mod tables;
#[cfg(test)]
mod times;
#[cfg(test)]
mod trees;
