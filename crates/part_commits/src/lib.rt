//! Plans of what commands change in the tree part, carried out store by store.
#![tactic(auto)]

mod bodies;
mod committing;
mod done;
mod flow_change;
mod going;
pub mod laws;
mod leaving;
mod making;
mod moving;
mod pairs;
mod people_change;
mod renaming;
mod revisions;
mod room;
mod sources;
mod tree;

pub use committing::commit;
pub use done::Done;
pub use going::page_of;
pub use room::make_room;
