//! Room for what is found fast.
ghost use Rattle.std.specs.Prelude.{◌≡◌, OnOk};
ghost use Rattle.part_commits.specs.InStep.{HasIndexRoom, HasOtherRoom, rows_coming};

use site_part::{Change, TreeChange, TreePart};
use site_types::NoMemory;

/// Makes room for what a change puts into the tables and among the aliases, or tells that memory
/// ran out. All else stays.
///
/// It costs nothing if the room is there, and otherwise a copy of what is kept.
pub fn make_room(part: &mut TreePart, change: &Change) -> Result<(), NoMemory>
    ensures room { HasOtherRoom part.old part.new }
    ensures ok { OnOk result (HasIndexRoom part.new change.now) }
{
    let pages = change.bodies.len();
    let Some(places) = pages.checked_add(coming(&change.tree)) else {
        return Err(NoMemory);
    };
    match part.times.expiries.reserve(pages) {
        Err(error) => Err(error),
        Ok(()) => match part.times.go_lives.reserve(pages) {
            Err(error) => Err(error),
            Ok(()) => part.aliases.reserve(places),
        },
    }
}

/// How many pages come.
fn coming(change: &TreeChange) -> usize
    ensures { result ≡ rows_coming change.now }
{
    match change {
        TreeChange::Nothing => 0,
        TreeChange::Insert { rows } => rows.len(),
        TreeChange::Move { .. } => 0,
        TreeChange::Delete { .. } => 0,
        TreeChange::Rename { .. } => 0,
    }
}
