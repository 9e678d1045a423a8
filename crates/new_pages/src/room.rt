//! Room for what a plan changes.
ghost use Rattle.std.specs.Prelude.{◌≤◌, OnOk};
ghost use Rattle.site_part.specs.Standing.{IsSame};

use site_part::TreePart;
use site_types::NoMemory;

/// Makes room for so many rows and revisions. All but the room stays as it was.
pub fn make_room(part: &mut TreePart, rows: usize, revisions: usize) -> Result<(), NoMemory>
    ensures same { IsSame part.old part.new }
    ensures pages { OnOk result (rows ≤ part.new.rows.spare) }
    ensures revisions { OnOk result (revisions ≤ part.new.shelf.spare) }
{
    part.rows.reserve(rows)?;
    part.shelf.reserve(revisions)?;
    Ok(())
}
