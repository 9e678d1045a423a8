//! Plans of the commands on drafts, publishing, locks and revisions, and of those on users, groups,
//! memberships and grants.
#![tactic(auto)]

mod filing;
mod joining;
mod locking;
mod opening;
mod people;
mod prepare;
mod publication;
mod purging;
mod ticking;

pub use prepare::prepare_flow;
