//! Commands read from bytes.

ghost use Rattle.std.specs.Prelude.{◌≤◌};
ghost use Rattle.content_codec.specs.Reading.{Reads};
ghost use Rattle.entry_codec.specs.Commands.{fields_at, command_at};

use crate::lists::{read_groups, read_tasks};
use crate::read_fields::{
    read_alias, read_assign, read_copy, read_create, read_define_user, read_file, read_grant,
    read_member, read_move, read_save, read_set_slug,
};
use content_codec::{ReadFault, Reader};
use site_types::Command;
use std::alloc::Global;

/// The greatest tag; the least is 1.
const LAST_TAG: u8 = 29;

/// The next command: its tag, and its fields.
#[tactic(auto, unfolding(crate::specs::Commands::command_at))]
pub(crate) fn read_command(alloc: Global, reader: &mut Reader<'_>) -> Result<Command, ReadFault>
    ensures { Reads result (command_at reader.old) reader.new }
{
    let tag = reader.byte()?;
    read_fields(alloc, tag, reader)
}

/// The fields of the command with this tag.
#[tactic(auto, unfolding(crate::specs::Commands::fields_at))]
fn read_fields(alloc: Global, tag: u8, reader: &mut Reader<'_>) -> Result<Command, ReadFault>
    ensures { Reads result (fields_at tag reader.old) reader.new }
{
    if tag == 0 {
        return Err(ReadFault::NoForm);
    }
    if tag > LAST_TAG {
        return Err(ReadFault::NoForm);
    }
    if tag <= 7 {
        return read_on_tree(alloc, tag, reader);
    }
    if tag <= 17 {
        return read_on_page(alloc, tag, reader);
    }
    if tag <= 24 {
        return read_on_workflow(alloc, tag, reader);
    }
    read_on_people(tag, reader)
}

/// The fields of a command on the tree, with a tag from 1 to 7.
#[tactic(auto, unfolding(crate::specs::Commands::fields_at))]
fn read_on_tree(alloc: Global, tag: u8, reader: &mut Reader<'_>) -> Result<Command, ReadFault>
    requires low { 1 ≤ tag }
    requires high { tag ≤ 7 }
    ensures { Reads result (fields_at tag reader.old) reader.new }
{
    match tag {
        1 => read_create(alloc, reader),
        2 => read_move(reader),
        3 => Ok(Command::Delete {
            page: reader.page()?,
        }),
        4 => read_set_slug(reader),
        5 => read_alias(reader),
        6 => Ok(Command::Detach {
            page: reader.page()?,
        }),
        _ => read_copy(reader),
    }
}

/// The fields of a command on a page, with a tag from 8 to 17.
#[tactic(auto, unfolding(crate::specs::Commands::fields_at))]
fn read_on_page(alloc: Global, tag: u8, reader: &mut Reader<'_>) -> Result<Command, ReadFault>
    requires low { 8 ≤ tag }
    requires high { tag ≤ 17 }
    ensures { Reads result (fields_at tag reader.old) reader.new }
{
    match tag {
        8 => Ok(Command::OpenDesk {
            page: reader.page()?,
        }),
        9 => read_save(alloc, reader),
        10 => Ok(Command::ShutDesk {
            page: reader.page()?,
        }),
        11 => read_file(reader),
        12 => Ok(Command::Publish {
            page: reader.page()?,
        }),
        13 => Ok(Command::Unpublish {
            page: reader.page()?,
        }),
        14 => Ok(Command::Unschedule {
            page: reader.page()?,
        }),
        15 => Ok(Command::Lock {
            page: reader.page()?,
        }),
        16 => Ok(Command::Unlock {
            page: reader.page()?,
        }),
        _ => Ok(Command::Purge {
            page: reader.page()?,
        }),
    }
}

/// The fields of a command on workflows, with a tag from 18 to 24.
#[tactic(auto, unfolding(crate::specs::Commands::fields_at))]
fn read_on_workflow(alloc: Global, tag: u8, reader: &mut Reader<'_>) -> Result<Command, ReadFault>
    requires low { 18 ≤ tag }
    requires high { tag ≤ 24 }
    ensures { Reads result (fields_at tag reader.old) reader.new }
{
    match tag {
        18 => Ok(Command::DefineTask {
            groups: read_groups(alloc, reader)?,
        }),
        19 => Ok(Command::DefineWorkflow {
            tasks: read_tasks(alloc, reader)?,
        }),
        20 => read_assign(reader),
        21 => Ok(Command::Submit {
            page: reader.page()?,
        }),
        22 => Ok(Command::Approve {
            page: reader.page()?,
        }),
        23 => Ok(Command::Reject {
            page: reader.page()?,
        }),
        _ => Ok(Command::Cancel {
            page: reader.page()?,
        }),
    }
}

/// The fields of a command on users and time, with a tag from 25 to 29.
#[tactic(auto, unfolding(crate::specs::Commands::fields_at))]
fn read_on_people(tag: u8, reader: &mut Reader<'_>) -> Result<Command, ReadFault>
    requires low { 25 ≤ tag }
    requires high { tag ≤ 29 }
    ensures { Reads result (fields_at tag reader.old) reader.new }
{
    match tag {
        25 => read_define_user(reader),
        26 => Ok(Command::DefineGroup),
        27 => read_member(reader),
        28 => read_grant(reader),
        _ => Ok(Command::Tick),
    }
}
