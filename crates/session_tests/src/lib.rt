//! Tests of sessions and of the outside: pieces of input, failing reads and writes, disks that fail at
//! each call, and the order of reads and writes, which no case of a built program can show.
#![tactic(auto)]

#[cfg(test)]
mod disks;
#[cfg(test)]
mod order;
#[cfg(test)]
mod outside;
#[cfg(test)]
mod sessions;
