//! The tree part of the site in memory.
use desk_pairs::DeskPairs;
use grants::Grants;
use link_index::{Aliases, LinkIndex};
use page_store::Rows;
use revision_shelf::Shelf;
use site_types::Moment;
use time_table::Times;
use workflow::Flows;

/// All of the site in memory but the texts of open desks: the rows of its pages, their revisions, who
/// may do what, the tasks and workflows, which desks are open, the time, the next ids, and what is found
/// fast by the rows and the revisions.
#[derive(Debug, Drop)]
pub struct TreePart {
    /// The rows of the pages.
    pub rows: Rows,
    /// The revisions of the pages.
    pub shelf: Shelf,
    /// Users, groups, memberships and grants.
    pub grants: Grants,
    /// Tasks and workflows.
    pub flows: Flows,
    /// The open desks without their texts.
    pub desk_pairs: DeskPairs,
    /// The greatest moment of a command that was accepted.
    pub time: Moment,
    /// The number of the next page, from 2 to 1,000,001.
    pub next_page: u32,
    /// The number of the next revision, from 1 to 4,000,000,001.
    pub next_revision: u32,
    /// When live pages stop being live, and when scheduled revisions go live.
    pub times: Times,
    /// The aliases of the pages.
    pub aliases: Aliases,
    /// The pages that link to pages.
    pub links: LinkIndex,
}
