//! The lists of ids in bodies: the groups of a task, and the tasks of a workflow.
ghost use Rattle.std.specs.Prelude.{◌≡◌, ◌≤◌, [], length, Some, None, IfOk, IfSome, IsErrOf, option_map};
ghost use Rattle.std.specs.Bool.{then_some};
ghost use Rattle.std.specs.List.{insert};
ghost use Rattle.serde_json.specs.View.{view, items_view};
ghost use Rattle.json_model.specs.Members.{is_within, whole_within, each_of};
ghost use Rattle.block_content.specs.Reads.{Reads};
ghost use Rattle.wire_model.specs.declared.words.TheConstants.{MAX_NAMED_IDS};
ghost use Rattle.wire_model.specs.Forms.{ids_at, ids_of, groups_at, gathered, placed};

use block_content::ContentFault;
use block_content::members::{items, member, whole_within};
use serde_json::Value;
use site_types::{Ids, LAST_GROUP_ID};
use std::alloc::Global;
use wire_model::MAX_NAMED_IDS;

/// The groups at the member groups: 1 to 16 distinct ids in any order. They come out rising.
pub(crate) fn groups_at(alloc: Global, value: &Value) -> Result<Ids, ContentFault>
    ensures { Reads result (groups_at (view value.now)) }
{
    let ids = ids_at(alloc, value, "groups", LAST_GROUP_ID)?;
    gathered(alloc, ids.as_slice())
}

/// The ids at the member of this name: 1 to 16 whole numbers from 1 to `last`.
pub(crate) fn ids_at(
    alloc: Global,
    value: &Value,
    name: &str,
    last: u32,
) -> Result<Ids, ContentFault>
    ensures { Reads result (ids_at name.now last (view value.now)) }
{
    let Some(list) = member(value, name) else {
        return Err(ContentFault::Bad);
    };
    read_ids(alloc, list, last)
}

/// The ids that an array is: 1 to 16 whole numbers from 1 to `last`.
fn read_ids(alloc: Global, value: &Value, last: u32) -> Result<Ids, ContentFault>
    ensures { Reads result (ids_of last (view value.now)) }
{
    let Some(list) = items(value) else {
        return Err(ContentFault::Bad);
    };
    let ids = read_numbers(alloc, list, last)?;
    if ids.is_empty() || ids.len() > MAX_NAMED_IDS {
        return Err(ContentFault::Bad);
    }
    Ok(ids)
}

/// The whole numbers from 1 to `last` that values are.
fn read_numbers(alloc: Global, values: &[Value], last: u32) -> Result<Ids, ContentFault>
    ensures { Reads result (each_of (whole_within 1 last) (items_view values.now)) }
{
    let mut numbers = Vec::new(alloc);
    for value in values {
        numbers.push(read_number(value, last)?)?;
    }
    Ok(Ids::from_vec(numbers))
}

/// The whole number from 1 to `last` that a value is.
fn read_number(value: &Value, last: u32) -> Result<u32, ContentFault>
    ensures { Reads result (whole_within 1 last (view value.now)) }
{
    let Some(number) = whole_within(value, 1, u64::from(last)) else {
        return Err(ContentFault::Bad);
    };
    match u32::try_from(number) {
        Ok(number) => Ok(number),
        Err(_) => Err(ContentFault::Bad),
    }
}

/// The ids in their order, each of which must come once.
fn gathered(alloc: Global, ids: &[u32]) -> Result<Ids, ContentFault>
    ensures { Reads result (gathered [] ids.now) }
{
    let mut kept = Vec::new(alloc);
    for id in ids {
        place(&mut kept, *id)?;
    }
    Ok(Ids::from_vec(kept))
}

/// Puts an id among ids that rise, at its place. It is `Bad` if the id is one of them.
fn place(kept: &mut Vec<u32>, id: u32) -> Result<(), ContentFault>
    ensures ok { IfOk result (λ _. placed id kept.old.items ≡ Some kept.new.items) }
    ensures bad { IsErrOf result ContentFault.Bad → placed id kept.old.items ≡ None }
{
    let Some(at) = place_of(kept.as_slice(), id) else {
        return Err(ContentFault::Bad);
    };
    kept.insert(at, id)?;
    Ok(())
}

/// Where an id comes among ids that rise, or `None` if it is one of them.
fn place_of(kept: &[u32], id: u32) -> Option<usize>
    ensures place { placed id kept.now ≡ option_map (λ at. insert kept.now at id) result }
    ensures within { IfSome result (λ at. at ≤ length kept.now) }
{
    for at in 0..kept.len() {
        if id < kept[at] {
            return Some(at);
        }
        if id == kept[at] {
            return None;
        }
    }
    Some(kept.len())
}
