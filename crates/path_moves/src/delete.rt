//! Which pages go with a page that is deleted.
ghost use Rattle.std.specs.Prelude.{◌≡◌, ◌+◌, ◌≤◌, IfOk, length, map, take, drop};
ghost use Rattle.page_tree.specs.Tree.{Forest, node_of, ids_of};
ghost use Rattle.page_tree.specs.Rows.{rows_of};
ghost use Rattle.site_types.specs.declared.body.Body.{Body as PageBody};

use page_store::Rows;
use site_types::{Ids, NoMemory, PageId};
use std::alloc::Global;

/// The ids of a page and of all below it, depth first; none where there is no such page.
pub fn plan_delete(alloc: Global, rows: &Rows, page: PageId) -> Result<Ids, NoMemory>
    ensures { (tree : Forest PageBody) → rows.now.pages ≡ rows_of tree → IfOk result
        (λ ids. ids ≡ ids_of (node_of page tree)) }
{
    let _len = rows.len();
    match rows.range_of(page) {
        Some((place, count)) => {
            let ids = ids_between(alloc, rows, place, count)?;
            Ok(Ids::from_vec(ids))
        }
        None => Ok(Ids::from_vec(Vec::new(alloc))),
    }
}

/// The ids of so many pages from a place on.
fn ids_between(alloc: Global, rows: &Rows, place: usize, count: usize) -> Result<Vec<u32>, NoMemory>
    requires { place + count ≤ length rows.now.pages }
    ensures { IfOk result (λ ids. ids.items ≡ map (λ row. row.id) (take count (drop place rows.now.pages))) }
{
    let _len = rows.len();
    let mut ids = Vec::with_capacity(alloc, count)?;
    for done in 0..count {
        let Some(id) = rows.at(place + done) else {
            unreachable!();
        };
        ids.push(id.get())?;
    }
    Ok(ids)
}
