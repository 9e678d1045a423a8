//! What becomes of pages by a change.
ghost use Rattle.std.specs.Prelude.{◌≡◌, ◌+◌, ◌≤◌, ◌++◌, ℕ, List, length, map, take, drop, Some, IfOk, OnOk};
ghost use Rattle.site_types.specs.Ids.{IsPageId};
ghost use Rattle.site_types.specs.declared.body.Body.{Body as PageBody};
ghost use Rattle.site_types.specs.declared.page_row.PageRow.{PageRow as NewRow};
ghost use Rattle.link_plans.specs.Told.{fate, gone_with, gone_fates, row_fates, fates_of};

use flat_model::{Change, TreeChange};
use page_store::Rows;
use site_types::{Body, NoMemory, PageId, PageRow, Url};
use std::alloc::Global;

/// What becomes of a page.
#[derive(Clone, Copy, Debug)]
pub struct Fate {
    /// The page.
    pub page: PageId,
    /// The fields that it has from now on, or none if it goes.
    pub body: Option<Body>,
}

/// What becomes of the pages that come, that go and that get other fields, one after another.
///
/// A deletion costs as much as `range_of`, and a look-up for each page that goes.
pub(crate) fn fates(alloc: Global, rows: &Rows, change: &Change) -> Result<Vec<Fate>, NoMemory>
    ensures { IfOk result (λ fates. fates.items ≡ fates_of change.now rows.now.pages) }
{
    let mut fates = Vec::new(alloc);
    add_tree(&mut fates, rows, &change.tree)?;
    add_bodies(&mut fates, change.bodies.as_slice())?;
    Ok(fates)
}

/// Adds the pages that come or go.
fn add_tree(fates: &mut Vec<Fate>, rows: &Rows, tree: &TreeChange) -> Result<(), NoMemory>
    ensures { OnOk result
        (fates.new.items ≡ fates.old.items ++ row_fates tree.now rows.now.pages) }
{
    match tree {
        TreeChange::Insert { rows: new } => add_rows(fates, new.as_slice()),
        TreeChange::Delete { page } => add_gone(fates, rows, *page),
        TreeChange::Nothing => Ok(()),
        TreeChange::Move { .. } => Ok(()),
        TreeChange::Rename { .. } => Ok(()),
    }
}

/// Adds a page and all below it, which go.
fn add_gone(fates: &mut Vec<Fate>, rows: &Rows, page: PageId) -> Result<(), NoMemory>
    ensures { OnOk result
        (fates.new.items ≡ fates.old.items ++ gone_fates (gone_with page rows.now.pages)) }
{
    match rows.range_of(page) {
        Some((place, count)) => add_range(fates, rows, place, count),
        None => Ok(()),
    }
}

/// Adds so many pages from a place on, which go.
fn add_range(fates: &mut Vec<Fate>, rows: &Rows, place: usize, count: usize) -> Result<(), NoMemory>
    requires { place + count ≤ length rows.now.pages }
    ensures { OnOk result (fates.new.items ≡ fates.old.items
        ++ gone_fates (map (λ row. row.id) (take count (drop place rows.now.pages)))) }
{
    let _len = rows.len();
    for done in 0..count {
        let Some(page) = rows.at(place + done) else {
            unreachable!();
        };
        fates.push(Fate { page, body: None })?;
    }
    Ok(())
}

/// Adds the pages of these rows.
fn add_rows(fates: &mut Vec<Fate>, rows: &[(PageRow, Url)]) -> Result<(), NoMemory>
    ensures { OnOk result (fates.new.items ≡ fates.old.items
        ++ map (λ (row : NewRow × List ℕ). fate row.0.id (Some row.0.body)) rows.now) }
{
    for row in rows {
        fates.push(Fate {
            page: row.0.id,
            body: Some(row.0.body),
        })?;
    }
    Ok(())
}

/// Adds the pages that get other fields.
fn add_bodies(fates: &mut Vec<Fate>, bodies: &[(PageId, Body)]) -> Result<(), NoMemory>
    ensures { OnOk result (fates.new.items ≡ fates.old.items
        ++ map (λ (one : ℕ × PageBody). fate one.0 (Some one.1)) bodies.now) }
{
    for one in bodies {
        fates.push(Fate {
            page: one.0,
            body: Some(one.1),
        })?;
    }
    Ok(())
}

/// The page with this number.
pub(crate) fn page_of(number: u32) -> PageId
    requires { IsPageId number }
    ensures { result ≡ number }
{
    match PageId::new(number) {
        Some(page) => page,
        None => unreachable!(),
    }
}
