//! Changes, made store by store.
ghost use Rattle.std.specs.Prelude.{◌≡◌, ◌≤◌, length};
ghost use Rattle.flat_model.specs.Fits.{Fits};
ghost use Rattle.flat_model.specs.Made.{made};
ghost use Rattle.site_part.specs.Plans.{rows_needed, people_needed, flows_needed};
ghost use Rattle.site_part.specs.Standing.{seen, InStep};
ghost use Rattle.part_commits.specs.InStep.{CanStayInStep};

use crate::bodies::put_bodies;
use crate::flow_change::put_flows;
use crate::going::{drop_grants, put_purge};
use crate::people_change::put_people;
use crate::revisions::put_revisions;
use crate::tree::put_tree;
use site_part::{Change, TreePart};

/// Makes a change. It cannot fail, and takes no memory.
///
/// It costs a few look-ups for each page that comes, goes or changes, for each page that gets
/// another path or URL, and for each revision that comes or goes, and two changes of a table for
/// each page that changes.
pub(crate) fn make(part: &mut TreePart, change: Change)
    requires fits { Fits (seen part.old) change }
    requires rows { rows_needed change.tree ≤ part.old.rows.spare }
    requires revisions { length change.revisions ≤ part.old.shelf.spare }
    requires people { people_needed change.people ≤ part.old.grants.spare }
    requires flows { flows_needed change.flows ≤ part.old.flows.spare }
    requires in_step { InStep part.old }
    requires stays { CanStayInStep part.old (seen part.old) change }
    ensures made { seen part.new ≡ made change (seen part.old) }
    ensures desks { part.new.desk_pairs ≡ part.old.desk_pairs }
    ensures links { part.new.links ≡ part.old.links }
    ensures in_step { InStep part.new }
{
    let Change {
        tree,
        bodies,
        gone,
        purge,
        revisions,
        people,
        flows,
        time,
        next_page,
        next_revision,
    } = change;
    put_tree(&mut part.rows, &mut part.times, &mut part.aliases, tree);
    part.shelf.drop_pages(gone.as_slice());
    drop_grants(&mut part.grants, gone.as_slice());
    put_purge(&mut part.shelf, purge);
    put_revisions(&mut part.shelf, revisions);
    put_bodies(
        &mut part.rows,
        &mut part.times,
        &mut part.aliases,
        &part.shelf,
        bodies,
    );
    put_people(&mut part.grants, people);
    put_flows(&mut part.flows, flows);
    part.time = time;
    part.next_page = next_page;
    part.next_revision = next_revision;
}
