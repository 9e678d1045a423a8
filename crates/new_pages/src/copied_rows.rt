//! The rows and the revisions that come with a copy.
ghost use Rattle.std.specs.Prelude.{◌≡◌, ◌≤◌, ◌<◌, ◌+◌, ◌++◌, ℕ, Some, slice_get, length, drop, IfOk};
ghost use Rattle.std.specs.Option.{option_map};
ghost use Rattle.site_ids.specs.Ids.{IsPageId, IsRevisionId};
ghost use Rattle.site_model.specs.World as worlds;
ghost use Rattle.site_part.specs.Standing.{IsReady};
ghost use Rattle.page_copies.specs.Copied.{copy_row, revisions_of};
ghost use Rattle.new_pages.specs.Copying.{AreLeft, AreMovable, moved_row, rows_of_copy};

use crate::newcomer::{new_body, new_revision, new_row};
use crate::place::NewPlace;
use crate::source::{Source, row_at, url_at};
use page_copies::CopyPlan;
use site_part::TreePart;
use site_types::{
    Items, Moment, NoMemory, PageId, PageRow, Revision, RevisionId, Slug, Url, UserId,
};
use std::alloc::Global;
use step_path::Path;

/// The rows that come with a copy at a place: its own, and those of the copies below it.
///
/// It costs a few look-ups for each, and its URL.
pub(crate) fn coming_rows(
    alloc: Global,
    part: &TreePart,
    source: &Source,
    place: &NewPlace,
    slug: &Slug,
    caller: UserId,
) -> Result<Items<(PageRow, Url)>, NoMemory>
    requires { (world : worlds.TreePart) × IsReady part.now world
        × AreMovable part.now.rows.pages source.now place.now × AreLeft world source.now.rest }
    ensures { (world : worlds.TreePart) → IsReady part.now world → AreLeft world source.now.rest
        → IfOk result (λ rows. rows
        ≡ rows_of_copy world caller slug.now part.now.rows.pages source.now place.now) }
{
    let (page, revision) = ids_at(part, 0);
    let mut rows = Vec::with_capacity(alloc, source.rest + 1)?;
    let url = place.url.copy(alloc)?;
    rows.push((
        new_row(page, &place.path, slug, new_body(caller, revision)),
        url,
    ))?;
    for done in 0..source.rest {
        let row = copied_row(alloc, part, source, place, done, caller)?;
        rows.push(row)?;
    }
    Ok(Items::from_vec(rows))
}

/// The row of the copy of a page below, by its number among the rows below.
fn copied_row(
    alloc: Global,
    part: &TreePart,
    source: &Source,
    place: &NewPlace,
    done: usize,
    caller: UserId,
) -> Result<(PageRow, Url), NoMemory>
    requires below { done < source.now.rest }
    requires ready { (world : worlds.TreePart) × IsReady part.now world
        × AreMovable part.now.rows.pages source.now place.now × AreLeft world source.now.rest }
    ensures { (world : worlds.TreePart) → IsReady part.now world → AreLeft world source.now.rest
        → IfOk result (λ row. Some row
        ≡ option_map (λ page. copy_row world caller (1 + done) (moved_row source.now place.now page))
        (slice_get part.now.rows.pages (source.now.start + done))) }
{
    let _len = part.rows.len();
    let row = row_at(&part.rows, source.start + done);
    let Some(old) = Path::read(row.path.as_slice()) else {
        unreachable!();
    };
    let Some(path) = old.with_prefix(&source.path, &place.path) else {
        unreachable!();
    };
    let front = place.url.as_slice();
    let whole = url_at(&part.rows, source.start + done);
    let url = moved_url(alloc, front, whole.as_slice(), source.url_length)?;
    let (page, revision) = ids_at(part, done as u32 + 1);
    Ok((
        new_row(page, &path, &row.slug, new_body(caller, revision)),
        url,
    ))
}

/// A URL with what is left of another after so many bytes.
fn moved_url(alloc: Global, front: &[u8], old: &[u8], skipped: usize) -> Result<Url, NoMemory>
    ensures { IfOk result (λ url. url ≡ front.now ++ drop skipped old.now) }
{
    let mut bytes = Vec::from_slice(alloc, front)?;
    if skipped < old.len() {
        bytes.extend_from_slice(&old[skipped..])?;
    }
    Ok(Url::from_vec(bytes))
}

/// The revisions of copies that get these contents.
pub(crate) fn coming_revisions(
    alloc: Global,
    part: &TreePart,
    plan: CopyPlan,
    caller: UserId,
    time: Moment,
) -> Result<Items<Revision>, NoMemory>
    requires { (world : worlds.TreePart) × IsReady part.now world × (rest : ℕ)
        × (length plan ≤ rest + 1) × AreLeft world rest }
    ensures { (world : worlds.TreePart) → IsReady part.now world
        → IfOk result (λ revisions. revisions ≡ revisions_of world caller time 0 plan) }
{
    let pages = plan.into_vec();
    let mut revisions = Vec::with_capacity(alloc, pages.len())?;
    let mut done: u32 = 0;
    for (_, content) in pages {
        let (page, id) = ids_at(part, done);
        revisions.push(new_revision(id, page, caller, time, content))?;
        done += 1;
    }
    Ok(Items::from_vec(revisions))
}

/// The ids of the copy with this number.
pub(crate) fn ids_at(part: &TreePart, number: u32) -> (PageId, RevisionId)
    requires page { IsPageId (part.now.next_page + number) }
    requires revision { IsRevisionId (part.now.next_revision + number) }
    ensures { result ≡ (part.now.next_page + number, part.now.next_revision + number) }
{
    let Some(page) = PageId::new(part.next_page + number) else {
        unreachable!();
    };
    let Some(revision) = RevisionId::new(part.next_revision + number) else {
        unreachable!();
    };
    (page, revision)
}
