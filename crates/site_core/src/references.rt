//! Which pages link to a page.
ghost use Rattle.std.specs.Prelude.{◌≡◌, take, IfOk};
ghost use Rattle.public_view.specs.declared.refs.TheConstants.{MAX_REFS};
ghost use Rattle.link_index.specs.Pairs.{PairsRise, seconds_of};

use link_index::LinkIndex;
use public_view::MAX_REFS;
use site_types::{Ids, NoMemory, PageId};
use std::alloc::Global;

/// The first `MAX_REFS` pages that link to the page with this id, rising.
///
/// Two searches, and a look at each page that it answers.
pub(crate) fn first_refs(alloc: Global, links: &LinkIndex, id: PageId) -> Result<Ids, NoMemory>
    ensures value { IfOk result (λ refs. refs ≡ take MAX_REFS (seconds_of id links.now.pairs)) }
    ensures rise { PairsRise links.now.pairs }
{
    let mut refs = Vec::new(alloc);
    for page in links.refs_to(id) {
        if refs.len() >= MAX_REFS {
            return Ok(Ids::from_vec(refs));
        }
        refs.push(page.get())?;
    }
    Ok(Ids::from_vec(refs))
}
