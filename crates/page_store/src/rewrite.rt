//! Giving listed pages their paths and URLs, with one step for each page.
ghost use Rattle.std.specs.Prelude.{◌≡◌, ℕ, ◌+◌, ◌≤◌, if◌then◌else◌, List, [], length, map, nat_eq};
ghost use Rattle.std.specs.Option.{option_map};
ghost use Rattle.std.specs.List.{IsDistinct};
ghost use Rattle.std.specs.Map.{lookup};
ghost use Rattle.indexmap.specs.IndexMap.{spare};
ghost use Rattle.step_path.specs.Path.{path_text};
ghost use Rattle.page_store.specs.Search.{HaveTexts};
ghost use Rattle.page_store.specs.Relabelling.{listed_in_either};
ghost use Rattle.page_store.specs.Settling.{path_put, url_put, listed_put};
ghost use Rattle.page_store.specs.Rewriting.{text_put, path_counted, count_cleared, uncounted, uncounted_in};

use crate::stored::StoredRow;
use crate::{Relabels, Urls};
use indexmap::IndexMap;
use site_types::{PageId, PathText, Url};
use std::sync::ledger::Ledger;
use step_path::{Path, Steps};

/// A text that a page is to get.
#[derive(Drop)]
pub(crate) enum NewText {
    /// The text of a path, and the number of its steps.
    Path(PathText, u8),
    /// A URL.
    Url(Url),
}

/// Gives the listed pages their paths and their URLs, which are moved out of the list. Each page in
/// either list takes one step.
pub(crate) fn put_listed<L: Ledger>(
    stored: &mut IndexMap<PageId, StoredRow>,
    rows: &Relabels,
    urls: Urls,
    steps: &mut Steps<L>,
)
    requires texts { HaveTexts stored.old.entries }
    requires paths_once { IsDistinct nat_eq (map (λ (pair : ℕ × List ℕ). pair.0) rows.now) }
    requires urls_once { IsDistinct nat_eq (map (λ (pair : ℕ × List ℕ). pair.0) urls) }
    ensures rows { (id : ℕ) → lookup (nat_eq id) stored.new.entries
        ≡ option_map (listed_put url_put (lookup (nat_eq id) urls)) (option_map
        (listed_put path_put (lookup (nat_eq id) rows.now)) (lookup (nat_eq id) stored.old.entries)) }
    ensures spare { spare stored.new ≡ spare stored.old }
    ensures steps { steps.new ≤ steps.old + listed_in_either rows.now urls }
{
    let paths = rows.as_slice();
    put_paths(stored, paths, steps);
    put_urls(stored, urls.into_vec(), steps);
    clear_counts(stored, paths);
}

/// Gives the listed pages their paths, and counts them.
fn put_paths<L: Ledger>(
    stored: &mut IndexMap<PageId, StoredRow>,
    pairs: &[(PageId, Path)],
    steps: &mut Steps<L>,
)
    requires once { IsDistinct nat_eq (map (λ (pair : ℕ × List ℕ). pair.0) pairs.now) }
    ensures rows { (id : ℕ) → lookup (nat_eq id) stored.new.entries
        ≡ option_map (listed_put path_counted (lookup (nat_eq id) pairs.now))
        (lookup (nat_eq id) stored.old.entries) }
    ensures spare { spare stored.new ≡ spare stored.old }
    ensures steps { steps.new ≤ steps.old + length pairs.now }
{
    for (id, path) in pairs {
        rewrite(
            stored,
            *id,
            NewText::Path(text_of(path), path.depth()),
            steps,
        );
    }
}

/// Gives the listed pages their URLs, which are moved out of the list.
fn put_urls<L: Ledger>(
    stored: &mut IndexMap<PageId, StoredRow>,
    pairs: Vec<(PageId, Url)>,
    steps: &mut Steps<L>,
)
    requires once { IsDistinct nat_eq (map (λ (pair : ℕ × List ℕ). pair.0) pairs.items) }
    ensures rows { (id : ℕ) → lookup (nat_eq id) stored.new.entries
        ≡ option_map (listed_put url_put (lookup (nat_eq id) pairs.items))
        (lookup (nat_eq id) stored.old.entries) }
    ensures spare { spare stored.new ≡ spare stored.old }
    ensures steps { steps.new ≤ steps.old + uncounted_in stored.old.entries pairs.items }
{
    for (id, url) in pairs {
        rewrite(stored, id, NewText::Url(url), steps);
    }
}

/// Counts none of the listed pages any more.
fn clear_counts(stored: &mut IndexMap<PageId, StoredRow>, pairs: &[(PageId, Path)])
    requires once { IsDistinct nat_eq (map (λ (pair : ℕ × List ℕ). pair.0) pairs.now) }
    ensures rows { (id : ℕ) → lookup (nat_eq id) stored.new.entries
        ≡ option_map (listed_put count_cleared (lookup (nat_eq id) pairs.now))
        (lookup (nat_eq id) stored.old.entries) }
    ensures spare { spare stored.new ≡ spare stored.old }
{
    for (id, _path) in pairs {
        clear_count(stored, *id);
    }
}

/// Gives a page a path or a URL, if it is there: the only place where either is written. It takes
/// one step, unless one is counted for the page already.
fn rewrite<L: Ledger>(
    stored: &mut IndexMap<PageId, StoredRow>,
    id: PageId,
    text: NewText,
    steps: &mut Steps<L>,
)
    ensures rows { (other : ℕ) → lookup (nat_eq other) stored.new.entries
        ≡ (if nat_eq id other then option_map (text_put text) (lookup (nat_eq id) stored.old.entries)
        else lookup (nat_eq other) stored.old.entries) }
    ensures spare { spare stored.new ≡ spare stored.old }
    ensures steps { steps.new ≡ steps.old + uncounted (lookup (nat_eq id) stored.old.entries) }
{
    if let Some(page) = stored.get_mut(&id) {
        if !page.counted {
            steps.tick();
        }
        put_text(page, text);
    }
}

/// Puts a path or a URL in its place.
fn put_text(page: &mut StoredRow, text: NewText)
    ensures { page.new ≡ text_put text page.old }
{
    match text {
        NewText::Path(path, depth) => {
            page.row.path = path;
            page.row.depth = depth;
            page.counted = true;
        }
        NewText::Url(url) => page.url = url,
    }
}

/// Counts a page no more, if it is there.
fn clear_count(stored: &mut IndexMap<PageId, StoredRow>, id: PageId)
    ensures rows { (other : ℕ) → lookup (nat_eq other) stored.new.entries
        ≡ (if nat_eq id other then option_map (count_cleared []) (lookup (nat_eq id) stored.old.entries)
        else lookup (nat_eq other) stored.old.entries) }
    ensures spare { spare stored.new ≡ spare stored.old }
{
    if let Some(page) = stored.get_mut(&id) {
        page.counted = false;
    }
}

/// The text of a path, as a row has it.
fn text_of(path: &Path) -> PathText
    ensures { result ≡ path_text path.now }
{
    match PathText::read(path.text().as_slice()) {
        Some(text) => text,
        None => unreachable!(),
    }
}
