//! The page of the only desk that may end.
ghost use Rattle.std.specs.Prelude.{◌≡◌, [], ◌∷◌, IfOk, if◌then◌else◌};

use site_types::{Ids, NoMemory, PageId};
use std::alloc::Global;

/// The page, if its desk ends.
pub(crate) fn page_if(alloc: Global, page: PageId, ends: bool) -> Result<Ids, NoMemory>
    ensures { IfOk result (λ ids. ids ≡ (if ends then page ∷ [] else [])) }
{
    let mut pages = Vec::new(alloc);
    if ends {
        pages.push(page.get())?;
    }
    Ok(Ids::from_vec(pages))
}

/// No page. It takes no memory.
pub(crate) fn no_page(alloc: Global) -> Ids
    ensures { result ≡ [] }
{
    Ids::from_vec(Vec::new(alloc))
}
