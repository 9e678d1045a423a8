//! Putting planned links in.
ghost use Rattle.std.specs.Prelude.{◌≡◌, ◌+◌, ◌≤◌, ℕ, IfSome, OnOk};
ghost use Rattle.link_index.specs.Pairs.{has_pair};
ghost use Rattle.link_plans.specs.Told.{links_told, total_links};

use link_index::LinkIndex;
use site_types::{Ids, NoMemory, PageId};

/// Makes room for the links that pages are to get, so that `put_links` needs no memory.
pub fn reserve_links(index: &mut LinkIndex, planned: &[(PageId, Ids)]) -> Result<(), NoMemory>
    ensures pairs { index.new.pairs ≡ index.old.pairs }
    ensures ok { OnOk result (total_links planned.now ≤ index.new.spare) }
    ensures spare { index.old.spare ≤ index.new.spare }
{
    let Some(total) = total(planned) else {
        return Err(NoMemory);
    };
    index.reserve(total)
}

/// How many links pages are to get, or `None` if there are more than can be counted.
fn total(planned: &[(PageId, Ids)]) -> Option<usize>
    ensures { IfSome result (λ total. total ≡ total_links planned.now) }
{
    let mut total = 0usize;
    for one in planned {
        total = total.checked_add(one.1.len())?;
    }
    Some(total)
}

/// Lets pages link to these ids, one after another.
///
/// For each page it costs as much as `LinkIndex::replace_links`.
pub fn put_links(index: &mut LinkIndex, planned: &[(PageId, Ids)])
    requires room { total_links planned.now ≤ index.old.spare }
    ensures there { (linked page : ℕ) → has_pair linked page index.new.pairs
        ≡ links_told planned.now page linked (has_pair linked page index.old.pairs) }
    ensures spare { index.old.spare ≤ index.new.spare + total_links planned.now }
{
    for one in planned {
        index.replace_links(one.0, &one.1);
    }
}
