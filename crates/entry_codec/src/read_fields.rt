//! The fields of commands, read from bytes.

ghost use Rattle.content_codec.specs.Reading.{Reads};
ghost use Rattle.entry_codec.specs.Commands.{create_at, move_at, set_slug_at, alias_at, copy_at, save_at, file_at, assign_at, define_user_at, member_at, grant_at};

use crate::lists::{read_permission, read_position};
use content_codec::{ReadFault, Reader};
use site_types::{Command, DIGEST_BYTES, Digest};
use std::alloc::Global;

/// The fields of a creation.
#[tactic(auto, unfolding(crate::specs::Commands::create_at))]
pub(crate) fn read_create(alloc: Global, reader: &mut Reader<'_>) -> Result<Command, ReadFault>
    ensures { Reads result (create_at reader.old) reader.new }
{
    let parent = reader.page()?;
    let slug = reader.slug()?;
    let content = reader.content(alloc)?;
    Ok(Command::Create {
        parent,
        slug,
        content,
    })
}

/// The fields of a move.
#[tactic(auto, unfolding(crate::specs::Commands::move_at))]
pub(crate) fn read_move(reader: &mut Reader<'_>) -> Result<Command, ReadFault>
    ensures { Reads result (move_at reader.old) reader.new }
{
    let page = reader.page()?;
    let target = reader.page()?;
    let position = read_position(reader)?;
    Ok(Command::Move {
        page,
        target,
        position,
    })
}

/// The fields of a change of slug.
#[tactic(auto, unfolding(crate::specs::Commands::set_slug_at))]
pub(crate) fn read_set_slug(reader: &mut Reader<'_>) -> Result<Command, ReadFault>
    ensures { Reads result (set_slug_at reader.old) reader.new }
{
    let page = reader.page()?;
    let slug = reader.slug()?;
    Ok(Command::SetSlug { page, slug })
}

/// The fields of an alias.
#[tactic(auto, unfolding(crate::specs::Commands::alias_at))]
pub(crate) fn read_alias(reader: &mut Reader<'_>) -> Result<Command, ReadFault>
    ensures { Reads result (alias_at reader.old) reader.new }
{
    let source = reader.page()?;
    let parent = reader.page()?;
    let slug = reader.slug()?;
    Ok(Command::Alias {
        source,
        parent,
        slug,
    })
}

/// The fields of a copy.
#[tactic(auto, unfolding(crate::specs::Commands::copy_at))]
pub(crate) fn read_copy(reader: &mut Reader<'_>) -> Result<Command, ReadFault>
    ensures { Reads result (copy_at reader.old) reader.new }
{
    let page = reader.page()?;
    let parent = reader.page()?;
    let slug = reader.slug()?;
    let deep = reader.truth()?;
    Ok(Command::Copy {
        page,
        parent,
        slug,
        deep,
    })
}

/// The fields of a text that is saved.
#[tactic(auto, unfolding(crate::specs::Commands::save_at))]
pub(crate) fn read_save(alloc: Global, reader: &mut Reader<'_>) -> Result<Command, ReadFault>
    ensures { Reads result (save_at reader.old) reader.new }
{
    let page = reader.page()?;
    let content = reader.content(alloc)?;
    Ok(Command::SaveDesk { page, content })
}

/// The fields of a text that is filed.
#[tactic(auto, unfolding(crate::specs::Commands::file_at))]
pub(crate) fn read_file(reader: &mut Reader<'_>) -> Result<Command, ReadFault>
    ensures { Reads result (file_at reader.old) reader.new }
{
    let page = reader.page()?;
    let go_live = reader.optional_moment()?;
    let expire = reader.optional_moment()?;
    Ok(Command::File {
        page,
        go_live,
        expire,
    })
}

/// The fields of an assignment.
#[tactic(auto, unfolding(crate::specs::Commands::assign_at))]
pub(crate) fn read_assign(reader: &mut Reader<'_>) -> Result<Command, ReadFault>
    ensures { Reads result (assign_at reader.old) reader.new }
{
    let page = reader.page()?;
    let workflow = reader.optional_workflow()?;
    Ok(Command::Assign { page, workflow })
}

/// The fields of a membership.
#[tactic(auto, unfolding(crate::specs::Commands::member_at))]
pub(crate) fn read_member(reader: &mut Reader<'_>) -> Result<Command, ReadFault>
    ensures { Reads result (member_at reader.old) reader.new }
{
    let user = reader.user()?;
    let group = reader.group()?;
    let on = reader.truth()?;
    Ok(Command::Member { user, group, on })
}

/// The fields of a grant.
#[tactic(auto, unfolding(crate::specs::Commands::grant_at))]
pub(crate) fn read_grant(reader: &mut Reader<'_>) -> Result<Command, ReadFault>
    ensures { Reads result (grant_at reader.old) reader.new }
{
    let group = reader.group()?;
    let page = reader.page()?;
    let permission = read_permission(reader)?;
    let on = reader.truth()?;
    Ok(Command::Grant {
        group,
        page,
        permission,
        on,
    })
}

/// The fields of a user.
#[tactic(auto, unfolding(crate::specs::Commands::define_user_at))]
pub(crate) fn read_define_user(reader: &mut Reader<'_>) -> Result<Command, ReadFault>
    ensures { Reads result (define_user_at reader.old) reader.new }
{
    let superuser = reader.truth()?;
    let mut digest = [0; DIGEST_BYTES];
    digest.copy_from_slice(reader.bytes(DIGEST_BYTES)?);
    Ok(Command::DefineUser {
        superuser,
        digest: Digest::new(digest),
    })
}
