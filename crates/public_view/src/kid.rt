//! Kids on the cards of their parents.
use site_types::{PageId, Text, Url};

/// The most kids that a card tells: 1,000.
pub const MAX_KIDS: usize = 1_000;

/// What a card says of a live kid of its page.
#[derive(Debug, Drop)]
pub struct LiveKid {
    /// The kid's number.
    pub id: PageId,
    /// The title of the content that the kid shows.
    pub title: Text,
    /// The kid's URL.
    pub url: Url,
}
