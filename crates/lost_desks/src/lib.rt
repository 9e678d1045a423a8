//! Which open desks a command ends, found with a look at those alone that it can touch.
#![tactic(auto)]

mod alone;
mod deletion;
mod leaving;
mod locking;
mod loss;
mod moderating;
mod moving;
mod staying;
mod withdrawal;
mod within;

pub use deletion::lost_by_deletion;
pub use leaving::lost_by_leaving;
pub use locking::lost_by_lock;
pub use moderating::lost_by_moderation;
pub use moving::lost_by_move;
pub use staying::stays;
pub use withdrawal::lost_by_withdrawal;
