//! Positions, permissions and lists of ids, read and written.

ghost use Rattle.std.specs.Prelude.{◌≡◌, ◌++◌, OnOk};
ghost use Rattle.std.specs.List.{list_all};
ghost use Rattle.byte_forms.specs.Commands.{position_form, permission_form};
ghost use Rattle.content_codec.specs.Reading.{Reads, is_within};
ghost use Rattle.entry_codec.specs.Lists.{position_at, permission_at, rise_above, are_groups, are_tasks, groups_at, tasks_at};

use content_codec::{ReadFault, Reader, Writer};
use site_types::{Ids, LAST_GROUP_ID, LAST_TASK_ID, NoMemory, Permission, Position, TaskId};
use std::alloc::Global;

/// The next position: a byte from 1 to 6.
#[tactic(auto, unfolding(crate::specs::Lists::position_at))]
pub(crate) fn read_position(reader: &mut Reader<'_>) -> Result<Position, ReadFault>
    ensures { Reads result (position_at reader.old) reader.new }
{
    match reader.byte()? {
        1 => Ok(Position::FirstChild),
        2 => Ok(Position::LastChild),
        3 => Ok(Position::FirstSibling),
        4 => Ok(Position::Left),
        5 => Ok(Position::Right),
        6 => Ok(Position::LastSibling),
        _ => Err(ReadFault::NoForm),
    }
}

/// The next permission: a byte from 1 to 6.
#[tactic(auto, unfolding(crate::specs::Lists::permission_at))]
pub(crate) fn read_permission(reader: &mut Reader<'_>) -> Result<Permission, ReadFault>
    ensures { Reads result (permission_at reader.old) reader.new }
{
    match reader.byte()? {
        1 => Ok(Permission::Add),
        2 => Ok(Permission::Change),
        3 => Ok(Permission::Publish),
        4 => Ok(Permission::BulkDelete),
        5 => Ok(Permission::Lock),
        6 => Ok(Permission::Unlock),
        _ => Err(ReadFault::NoForm),
    }
}

/// Writes a position.
pub(crate) fn write_position(writer: &mut Writer, position: Position) -> Result<(), NoMemory>
    ensures { OnOk result (writer.new ≡ writer.old ++ position_form position) }
{
    writer.byte(match position {
        Position::FirstChild => 1,
        Position::LastChild => 2,
        Position::FirstSibling => 3,
        Position::Left => 4,
        Position::Right => 5,
        Position::LastSibling => 6,
    })
}

/// Writes a permission.
pub(crate) fn write_permission(writer: &mut Writer, permission: Permission) -> Result<(), NoMemory>
    ensures { OnOk result (writer.new ≡ writer.old ++ permission_form permission) }
{
    writer.byte(match permission {
        Permission::Add => 1,
        Permission::Change => 2,
        Permission::Publish => 3,
        Permission::BulkDelete => 4,
        Permission::Lock => 5,
        Permission::Unlock => 6,
    })
}

/// The next groups of a task: 1 to 16 ids, rising.
#[tactic(auto, unfolding(crate::specs::Lists::groups_at))]
pub(crate) fn read_groups(alloc: Global, reader: &mut Reader<'_>) -> Result<Ids, ReadFault>
    ensures { Reads result (groups_at reader.old) reader.new }
{
    let groups = reader.numbers(alloc)?;
    if !are_groups(groups.as_slice()) {
        return Err(ReadFault::NoForm);
    }
    Ok(groups)
}

/// Whether numbers are the groups of a task.
#[tactic(auto, unfolding(crate::specs::Lists::are_groups))]
fn are_groups(numbers: &[u32]) -> bool
    ensures { result ≡ are_groups numbers.now }
{
    !numbers.is_empty() && numbers.len() <= 16 && rise(numbers)
}

/// Whether numbers are ids of groups that rise.
fn rise(numbers: &[u32]) -> bool
    ensures { result ≡ rise_above 0 numbers.now }
{
    let mut low = 0;
    for number in numbers {
        if *number <= low || *number > LAST_GROUP_ID {
            return false;
        }
        low = *number;
    }
    true
}

/// The next tasks of a workflow: 1 to 16 ids in any order.
#[tactic(auto, unfolding(crate::specs::Lists::tasks_at))]
pub(crate) fn read_tasks(alloc: Global, reader: &mut Reader<'_>) -> Result<Ids, ReadFault>
    ensures { Reads result (tasks_at reader.old) reader.new }
{
    let tasks = reader.numbers(alloc)?;
    if !are_tasks(tasks.as_slice()) {
        return Err(ReadFault::NoForm);
    }
    Ok(tasks)
}

/// Whether numbers are the tasks of a workflow.
#[tactic(auto, unfolding(crate::specs::Lists::are_tasks))]
fn are_tasks(numbers: &[u32]) -> bool
    ensures { result ≡ are_tasks numbers.now }
{
    !numbers.is_empty() && numbers.len() <= 16 && each_is_task(numbers)
}

/// Whether each number is the id of a task.
fn each_is_task(numbers: &[u32]) -> bool
    ensures { result ≡ list_all (is_within 1 LAST_TASK_ID) numbers.now }
{
    numbers.iter().all(|number| is_task(*number))
}

/// Whether a number is the id of a task.
fn is_task(number: u32) -> bool
    ensures { result ≡ is_within 1 LAST_TASK_ID number }
{
    TaskId::new(number).is_some()
}
