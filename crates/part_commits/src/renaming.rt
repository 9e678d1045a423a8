//! Other slugs for pages, as they were planned.
ghost use Rattle.std.specs.Prelude.{◌≡◌, [], ◌<◌, ◌≤◌};
ghost use Rattle.flat_model.specs.Made.{with_name};
ghost use Rattle.page_store.specs.Changes.{MayHaveSlug};
ghost use Rattle.page_store.specs.Relabelling.{AreListed};

use page_store::{Relabels, Rows, Urls};
use site_types::{PageId, Slug, Url};
use std::marker::Brand;
use std::sync::ledger::{Blank, Ledger};
use step_path::Steps;

/// Gives a page another slug, and the listed pages their new URLs. It cannot fail.
///
/// It costs a few look-ups for each page whose URL changes.
pub(crate) fn put_name(rows: &mut Rows, page: PageId, slug: Slug, urls: Urls)
    requires may { MayHaveSlug rows.old.pages page slug }
    requires listed { AreListed rows.old.pages urls }
    requires spare { 3 ≤ rows.old.spare }
    ensures { rows.new.pages ≡ with_name page slug urls rows.old.pages }
{
    put_slug::<Brand>(rows, page, slug, urls, Blank::new(1));
}

/// Gives a page another slug, and counts the steps of the URLs over a new ledger.
fn put_slug<L: Ledger>(rows: &mut Rows, page: PageId, slug: Slug, urls: Urls, blank: Blank)
    requires name { blank.name ≡ L.name }
    requires parts { blank.parts ≡ L.parts }
    requires some { 0 < blank.parts }
    requires may { MayHaveSlug rows.old.pages page slug }
    requires listed { AreListed rows.old.pages urls }
    requires spare { 3 ≤ rows.old.spare }
    ensures { rows.new.pages ≡ with_name page slug urls rows.old.pages }
{
    let mut steps: Steps<L> = Steps::new(blank);
    let pairs = urls.into_vec();
    let paths = no_paths(&pairs);
    rows.set_slug(page, slug);
    let _len = rows.len();
    rows.relabel(0, 0, 0, &paths, Urls::from_vec(pairs), &mut steps);
}

/// No pages with new paths. It takes no memory.
fn no_paths(pairs: &Vec<(PageId, Url)>) -> Relabels
    ensures { result ≡ [] }
{
    Relabels::from_vec(Vec::new(*pairs.allocator()))
}
