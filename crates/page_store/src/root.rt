//! The rows of a new tree, which is its root alone.
ghost use Rattle.std.specs.Prelude.{◌≡◌, IfOk};
ghost use Rattle.site_types.specs.RootBody.{root_body};
ghost use Rattle.page_store.specs.PageRows.{root_rows};
ghost use Rattle.page_store.specs.Kept.{IsRootPage};

use crate::Rows;
use crate::kid_index::KidIndex;
use crate::stored::{Parent, StoredRow};
use indexmap::IndexMap;
use site_types::{Body, NoMemory, PageId, PageRow, PathText, Slug, Url, UserId};
use std::alloc::Global;
use step_path::Path;

impl Rows {
    /// The rows of a tree that is its root alone: page 1 with the path `0001` and the URL `/`.
    pub fn root(alloc: Global) -> Result<Rows, NoMemory>
        ensures { IfOk result (λ rows. rows.pages ≡ root_rows) }
    {
        let page = root_page(alloc)?;
        let mut stored = IndexMap::new(alloc);
        stored.insert(PageId::root(), page)?;
        let mut order = Vec::new(alloc);
        order.push(PageId::root())?;
        Ok(Rows {
            stored,
            order,
            kids: KidIndex::new(alloc),
        })
    }
}

/// What is kept of the root.
fn root_page(alloc: Global) -> Result<StoredRow, NoMemory>
    ensures { IfOk result IsRootPage }
{
    let Some(path) = PathText::read(Path::root().text().as_slice()) else {
        unreachable!();
    };
    let url = Vec::from_slice(alloc, b"/")?;
    Ok(StoredRow {
        row: PageRow {
            id: PageId::root(),
            path,
            depth: 1,
            numchild: 0,
            slug: Slug::root(),
            body: body_of_root(),
        },
        url: Url::from_vec(url),
        parent: Parent::none(),
        counted: false,
    })
}

/// The root is the scheduler's, it is not live, and it has no revision.
fn body_of_root() -> Body
    ensures { result ≡ root_body }
{
    Body {
        owner: UserId::scheduler(),
        source: None,
        live: false,
        expired: false,
        shown: None,
        latest: None,
        scheduled: None,
        first_published: None,
        last_published: None,
        locked_by: None,
        workflow: None,
        moderation: None,
    }
}
