//! Tasks and workflows in memory, and what an event makes of a page's moderation.
#![tactic(auto)]

mod define;
mod flows;
mod full;
mod look_up;
mod moderate;
mod stage;

pub use flows::Flows;
pub use full::Full;
pub use stage::Stage;
