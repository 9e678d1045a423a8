//! Plans of pages that come: creations, aliases and copies; and what the plans of all commands on the
//! tree share: rules on places, faults, replies, room.
#![tactic(auto)]

mod aliasing;
mod copied_rows;
mod copying;
mod creation;
mod fault;
mod going;
mod newcomer;
mod place;
mod room;
mod source;
mod telling;
mod weighing;

pub use aliasing::plan_aliasing;
pub use copying::plan_copying;
pub use creation::plan_creation;
pub use fault::url_fault;
pub use going::goes;
pub use newcomer::{new_revision, one_item};
pub use place::both;
pub use room::make_room;
pub use telling::{later, told_page};
pub use weighing::weighs_more;
