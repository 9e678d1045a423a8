//! The ids that a page links to after a change.
ghost use Rattle.std.specs.Prelude.{◌≡◌, ◌++◌, [], IfOk};
ghost use Rattle.std.specs.Option.{option_copied};
ghost use Rattle.site_model.specs.Links.{links_in};
ghost use Rattle.link_plans.specs.Found.{RevisionsRise};
ghost use Rattle.link_plans.specs.PageLinks.{live_links, body_links, kept_links};
ghost use Rattle.link_plans.specs.Told.{AreThose, finds_told};

use crate::after::{Edit, body_after, content_after, live_id};
use block_content::links;
use site_types::{Body, Content, Ids, NoMemory};
use std::alloc::Global;

/// The ids that a page with these fields links to, or none if it is not there.
pub(crate) fn kept_ids(alloc: Global, edit: &Edit<'_>, body: Option<Body>) -> Result<Ids, NoMemory>
    requires rise { RevisionsRise edit.now.new.now }
    ensures { IfOk result (AreThose (kept_links (finds_told edit.now.rows.now.pages
        edit.now.shelf.now.revisions edit.now.new.now edit.now.fates.now) body)) }
{
    match body {
        Some(body) => body_ids(alloc, edit, body),
        None => Ok(no_ids(alloc)),
    }
}

/// The ids that a page with these fields links to.
fn body_ids(alloc: Global, edit: &Edit<'_>, body: Body) -> Result<Ids, NoMemory>
    requires rise { RevisionsRise edit.now.new.now }
    ensures { IfOk result (AreThose (body_links (finds_told edit.now.rows.now.pages
        edit.now.shelf.now.revisions edit.now.new.now edit.now.fates.now) body)) }
{
    match body.source {
        Some(source) => live_ids(alloc, edit, body_after(edit, source)),
        None => {
            let latest = content_ids(alloc, content_after(edit, body.latest))?;
            let shown = live_ids(alloc, edit, Some(body))?;
            joined(latest, shown)
        }
    }
}

/// The ids that what a regular page shows links to, if the page is live.
pub(crate) fn live_ids(alloc: Global, edit: &Edit<'_>, body: Option<Body>) -> Result<Ids, NoMemory>
    requires rise { RevisionsRise edit.now.new.now }
    ensures { IfOk result (AreThose (live_links (finds_told edit.now.rows.now.pages
        edit.now.shelf.now.revisions edit.now.new.now edit.now.fates.now) body)) }
{
    content_ids(alloc, content_after(edit, live_id(body)))
}

/// The ids that a content links to, if there is one.
fn content_ids(alloc: Global, content: Option<&Content>) -> Result<Ids, NoMemory>
    ensures { IfOk result (AreThose (links_in (option_copied content.entry))) }
{
    match content {
        Some(content) => links(alloc, content),
        None => Ok(no_ids(alloc)),
    }
}

/// These ids, and then those.
fn joined(first: Ids, second: Ids) -> Result<Ids, NoMemory>
    ensures { IfOk result (λ both. both ≡ first ++ second) }
{
    let mut numbers = first.into_vec();
    numbers.extend_from_slice(second.as_slice())?;
    Ok(Ids::from_vec(numbers))
}

/// No ids. It takes no memory.
fn no_ids(alloc: Global) -> Ids
    ensures { result ≡ [] }
{
    Ids::from_vec(Vec::new(alloc))
}
