//! The nearest workflow of a page.
ghost use Rattle.std.specs.Prelude.{◌≡◌, IsSome};
ghost use Rattle.page_tree.specs.Tree.{Forest};
ghost use Rattle.page_tree.specs.Rows.{rows_of, row_with};
ghost use Rattle.page_tree.specs.Walk.{walk};
ghost use Rattle.site_types.specs.declared.body.Body.{Body as PageBody};
ghost use Rattle.site_model.specs.World.{TreePart};
ghost use Rattle.site_model.specs.Moderating.{nearest_workflow, last_workflow};
ghost use Rattle.moderating.specs.Nearest.{own_workflow};

use page_store::Rows;
use site_types::{PageId, WorkflowId};

/// The nearest workflow of a page: its own, or else that of the nearest page above it that has one;
/// `None` exactly if neither the page nor a page above it has one (Wagtail, workflows).
///
/// It costs two look-ups for each page from this one up to the one with the workflow, or to the
/// root.
pub fn nearest_workflow(rows: &Rows, page: PageId) -> Option<WorkflowId>
    requires { IsSome (row_with page rows.now.pages) }
    ensures { (part : TreePart) → rows.now.pages ≡ rows_of part.tree
        → result ≡ nearest_workflow part page }
{
    up(rows, page)
}

/// The workflow of a page, or else of the nearest page above it that has one.
fn up(rows: &Rows, page: PageId) -> Option<WorkflowId>
    requires { IsSome (row_with page rows.now.pages) }
    ensures { (tree : Forest PageBody) → rows.now.pages ≡ rows_of tree
        → result ≡ last_workflow (walk page tree) }
{
    let _len = rows.len();
    match own(rows, page) {
        Some(workflow) => Some(workflow),
        None => match rows.parent(page) {
            Some(parent) => up(rows, parent),
            None => None,
        },
    }
}

/// The workflow of the page itself.
fn own(rows: &Rows, page: PageId) -> Option<WorkflowId>
    ensures { result ≡ own_workflow page rows.now.pages }
{
    match rows.row(page) {
        Some(row) => row.body.workflow,
        None => None,
    }
}
