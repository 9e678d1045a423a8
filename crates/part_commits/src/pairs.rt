//! Which desks are open, as it was planned.
ghost use Rattle.std.specs.Prelude.{◌≡◌, ◌≤◌};
ghost use Rattle.std.specs.List.{AllByRecursion};
ghost use Rattle.site_ids.specs.Ids.{IsPageId};
ghost use Rattle.site_part.specs.Plans.{desks_needed, pairs_opened, pairs_left, DeskFits};

use crate::going::page_of;
use desk_pairs::DeskPairs;
use site_types::{Content, PageId, UserId};

/// Opens a desk, if one is to be opened. It cannot fail.
pub(crate) fn put_pair(pairs: &mut DeskPairs, opened: &Option<(PageId, UserId, Content)>)
    requires fits { DeskFits opened.now pairs.old.pairs }
    requires room { desks_needed opened.now ≤ pairs.old.spare }
    ensures { pairs.new.pairs ≡ pairs_opened opened.now pairs.old.pairs }
{
    match opened {
        None => {}
        Some(desk) => pairs.put(desk.0, desk.1),
    }
}

/// Ends the desks on these pages. It costs a search for each.
pub(crate) fn cut_pairs(pairs: &mut DeskPairs, shut: &[u32])
    requires { AllByRecursion IsPageId shut.now }
    ensures { pairs.new.pairs ≡ pairs_left shut.now pairs.old.pairs }
{
    for number in shut {
        pairs.cut(page_of(*number));
    }
}
