//! Plans, carried out.
ghost use Rattle.std.specs.Prelude.{◌≡◌};
ghost use Rattle.std.specs.List.{AllByRecursion};
ghost use Rattle.site_ids.specs.Ids.{IsPageId};
ghost use Rattle.site_part.specs.Standing.{InStep, IsLinked, seen};
ghost use Rattle.site_part.specs.Plans.{PlanFits, HasRoom, left_by};
ghost use Rattle.part_commits.specs.Ending.{TellsPlan};
ghost use Rattle.part_commits.specs.InStep.{CanStayInStep};
ghost use Rattle.part_commits.specs.Links.{CanPutLinks};

use crate::done::Done;
use crate::making::make;
use crate::pairs::{cut_pairs, put_pair};
use link_plans::put_links;
use site_part::{Plan, TreePart};

/// Does what was planned. It cannot fail, and takes no memory.
///
/// It costs a few look-ups for each page that comes, goes or changes, for each page that gets
/// another path or URL, and for each revision that comes or goes, and a search for each desk that
/// is opened or ends; and as much as `put_links` for the pages that get other links.
pub fn commit(part: &mut TreePart, plan: Plan) -> Done
    requires fits { PlanFits (seen part.old) plan }
    requires room { HasRoom part.old plan }
    requires pages { AllByRecursion IsPageId plan.shut }
    requires in_step { InStep part.old }
    requires stays { CanStayInStep part.old (seen part.old) plan.change }
    requires linked { IsLinked part.old }
    requires links { CanPutLinks part.old plan }
    ensures told { TellsPlan plan result }
    ensures made { seen part.new ≡ left_by plan (seen part.old) }
    ensures in_step { InStep part.new }
    ensures linked { IsLinked part.new }
{
    let Plan {
        reply,
        opened,
        shut,
        saved,
        change,
        links,
    } = plan;
    make(part, change);
    put_links(&mut part.links, links.as_slice());
    put_pair(&mut part.desk_pairs, &opened);
    cut_pairs(&mut part.desk_pairs, shut.as_slice());
    Done {
        reply,
        opened,
        saved,
        shut,
    }
}
