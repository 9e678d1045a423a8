//! The open desks of one stripe of the site, rising by page.
#![tactic(auto)]

mod change;
mod laws;
mod look_up;
mod part;
mod place;

pub use laws::{one_desk_a_page, own_goes_alone, own_is_the_one, still_rise};
pub use part::DeskPart;
