//! Answers to requests.
use http_model::Allow;
use public_view::Card;
use site_types::{Content, Ids, Refusal, Reply};

/// The answer to a request.
#[derive(Debug, Drop)]
pub enum Answer {
    /// The command was accepted as the entry with this number.
    Accepted(u64, Reply),
    /// The page that everybody may read at a URL, by its card.
    Public(Card),
    /// The card of a page.
    Page(Card),
    /// The ids of the pages that link to a page, rising.
    Refs(Ids),
    /// What is written at the caller's desk on a page.
    Desk(Content),
    /// The command was refused, or the page or the desk that is read does not exist.
    Refused(Refusal),
    /// The path has no route, or no page that everybody may read.
    NotFound,
    /// What is asked is not built yet.
    NotBuilt,
    /// The route takes another method, this one.
    Method(Allow),
    /// The request is not of the route's form.
    Form,
    /// The request has no token, or no user has it.
    NoUser,
    /// The front of the input is no request: 400, 413 or 431. The connection ends.
    Head(u16),
    /// The disk failed while the command was written, which no rule refuses: its counts of faults
    /// before the call and after it. The site is as it was.
    Disk(u64, u64),
    /// The memory ran out, and nothing was done.
    Memory,
}
