//! Pages that come: their rows, what is kept of them, and their first revisions.
ghost use Rattle.std.specs.Prelude.{◌≡◌, [], ◌∷◌, IfOk};
ghost use Rattle.site_model.specs.Create.{fresh_body, plain_revision};
ghost use Rattle.new_pages.specs.Making.{row_at, newcomer_plan};

use crate::place::NewPlace;
use crate::telling::text_of;
use site_part::{Change, Plan, TreeChange};
use site_types::{
    Body, Content, Items, Moment, NoMemory, PageId, PageRow, Reply, Revision, RevisionId, Slug,
    UserId,
};
use std::alloc::Global;
use step_path::Path;

/// A page that comes, without its slug.
#[derive(Drop)]
pub(crate) struct Newcomer {
    /// Its id.
    pub(crate) id: PageId,
    /// Its path and its URL.
    pub(crate) place: NewPlace,
    /// What is kept of it.
    pub(crate) body: Body,
}

/// The plan of a page that comes with these revisions, where this is the number of the next one then.
pub(crate) fn newcomer_plan(
    alloc: Global,
    newcomer: Newcomer,
    slug: &Slug,
    revisions: Items<Revision>,
    time: Moment,
    next_revision: u32,
) -> Result<Plan, NoMemory>
    ensures { IfOk result
        (λ plan. plan ≡ newcomer_plan newcomer slug.now revisions time next_revision) }
{
    let Newcomer { id, place, body } = newcomer;
    let told = place.url.copy(alloc)?;
    let reply = Reply::Page {
        id,
        path: text_of(&place.path),
        url: told,
    };
    let row = new_row(id, &place.path, slug, body);
    let rows = one_item(alloc, (row, place.url))?;
    let tree = TreeChange::Insert { rows };
    let mut change = Change::of_tree(alloc, tree, time, id.get() + 1, next_revision);
    change.revisions = revisions;
    Ok(Plan::quiet(alloc, reply, change))
}

/// A list of one item.
pub fn one_item<T: Drop>(alloc: Global, item: T) -> Result<Items<T>, NoMemory>
    ensures { IfOk result (λ items. items ≡ item ∷ []) }
{
    let mut items = Vec::with_capacity(alloc, 1)?;
    items.push(item)?;
    Ok(Items::from_vec(items))
}

/// The row of a page that comes at this path.
pub(crate) fn new_row(page: PageId, path: &Path, slug: &Slug, body: Body) -> PageRow
    ensures { result ≡ row_at page path.now slug.now body }
{
    PageRow {
        id: page,
        path: text_of(path),
        depth: path.depth(),
        numchild: 0,
        slug: slug.copy(),
        body,
    }
}

/// What is kept of a page that was just made by this user with this revision.
pub(crate) fn new_body(owner: UserId, revision: RevisionId) -> Body
    ensures { result ≡ fresh_body owner revision }
{
    Body {
        owner,
        source: None,
        live: false,
        expired: false,
        shown: Some(revision),
        latest: Some(revision),
        scheduled: None,
        first_published: None,
        last_published: None,
        locked_by: None,
        workflow: None,
        moderation: None,
    }
}

/// A revision by this user without moments.
pub fn new_revision(
    id: RevisionId,
    page: PageId,
    by: UserId,
    made: Moment,
    content: Content,
) -> Revision
    ensures { result ≡ plain_revision id page by made content }
{
    Revision {
        id,
        page,
        by,
        made,
        content,
        go_live: None,
        expire: None,
    }
}
