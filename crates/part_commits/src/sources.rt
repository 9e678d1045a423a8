//! Sources of pages, with the aliases in step.
ghost use Rattle.std.specs.Prelude.{◌≡◌, ◌+◌, ◌≤◌, ℕ, Some, ◌&&◌, ◌||◌, nat_eq, if◌then◌else◌};
ghost use Rattle.site_model.specs.Bodies.{same_number};
ghost use Rattle.link_index.specs.Pairs.{has_pair};

use link_index::Aliases;
use site_types::{PageId, PageRow};

/// Makes a page that comes the alias of its source, if it has one. Two searches.
pub(crate) fn add_row(aliases: &mut Aliases, row: &PageRow)
    requires { 1 ≤ aliases.old.spare }
    ensures there { (first second : ℕ) → has_pair first second aliases.new.pairs
        ≡ ((same_number row.now.body.source (Some first) && nat_eq row.now.id second)
        || has_pair first second aliases.old.pairs) }
    ensures spare { aliases.old.spare ≤ aliases.new.spare + 1 }
{
    add_source(aliases, row.id, row.body.source);
}

/// Makes a page the alias of a source, if there is one. Two searches.
fn add_source(aliases: &mut Aliases, page: PageId, source: Option<PageId>)
    requires { 1 ≤ aliases.old.spare }
    ensures there { (first second : ℕ) → has_pair first second aliases.new.pairs
        ≡ ((same_number source (Some first) && nat_eq page second)
        || has_pair first second aliases.old.pairs) }
    ensures spare { aliases.old.spare ≤ aliases.new.spare + 1 }
{
    match source {
        Some(source) => aliases.add(source, page),
        None => {}
    }
}

/// Makes a page the alias of this source, or of none. Five searches.
pub(crate) fn put_source(aliases: &mut Aliases, page: PageId, source: Option<PageId>)
    requires { 1 ≤ aliases.old.spare }
    ensures there { (first second : ℕ) → has_pair first second aliases.new.pairs
        ≡ (if nat_eq page second then same_number source (Some first)
        else has_pair first second aliases.old.pairs) }
    ensures spare { aliases.old.spare ≤ aliases.new.spare + 1 }
{
    aliases.remove(page);
    add_source(aliases, page, source);
}
