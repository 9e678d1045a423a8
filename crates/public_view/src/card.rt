//! Cards of pages.
use crate::LiveKid;
use site_types::{Blocks, Body, Items, Moment, PageId, PathText, Slug, Text, Url};

/// What a card says of a page: its row, its URL, what it shows, and its live kids.
#[derive(Debug, Drop)]
pub struct Card {
    /// The page's number.
    pub id: PageId,
    /// The text of its path: four digits in base 36 for each step, the root's first.
    pub path: PathText,
    /// The number of steps of its path, 1 to 63; the root's is 1.
    pub depth: u8,
    /// The number of its kids.
    pub numchild: u32,
    /// Its slug; the root's is empty.
    pub slug: Slug,
    /// The other fields of its row.
    pub body: Body,
    /// Its URL: `/`, and the slug and `/` of each page on the way to it.
    pub url: Url,
    /// The title of the content that it shows; the root's is `Root`.
    pub title: Text,
    /// The blocks of the content that it shows.
    pub blocks: Blocks,
    /// When it is to stop being live, by the revision that it shows, if ever.
    pub expire_at: Option<Moment>,
    /// Its live kids in path order: the first `MAX_KIDS` of them, if there are more.
    pub kids: Items<LiveKid>,
}
