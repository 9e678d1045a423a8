//! Tests of the wire crates: what their clauses leave open. Bytes from outside have their fronts,
//! and calls that take memory succeed when there is enough.
#![tactic(auto)]

#[cfg(test)]
mod fronts;
#[cfg(test)]
mod posts;
#[cfg(test)]
mod responses;
#[cfg(test)]
mod routes;
