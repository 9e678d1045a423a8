//! Commands written as bytes.

ghost use Rattle.std.specs.Prelude.{◌≡◌, ◌++◌, OnOk};
ghost use Rattle.byte_forms.specs.Commands.{command_form, IsCommand, KeepsForm};

use crate::write_fields::{
    write_alias, write_assign, write_copy, write_create, write_define_user, write_file,
    write_grant, write_ids, write_member, write_move, write_on_page, write_save, write_set_slug,
};
use content_codec::Writer;
use site_types::{Command, NoMemory};

/// Writes a command: its tag, and its fields.
#[tactic(auto, unfolding(byte_forms::specs::Commands::command_form, byte_forms::specs::Commands::IsCommand))]
pub(crate) fn write_command(writer: &mut Writer, command: &Command) -> Result<(), NoMemory>
    requires { KeepsForm command.now }
    ensures form { OnOk result (writer.new ≡ writer.old ++ command_form command.now) }
    ensures has_form { OnOk result (IsCommand command.now) }
{
    match command {
        Command::Create {
            parent,
            slug,
            content,
        } => write_create(writer, *parent, slug, content),
        Command::Move {
            page,
            target,
            position,
        } => write_move(writer, *page, *target, *position),
        Command::Delete { page } => write_on_page(writer, 3, *page),
        Command::SetSlug { page, slug } => write_set_slug(writer, *page, slug),
        Command::Alias {
            source,
            parent,
            slug,
        } => write_alias(writer, *source, *parent, slug),
        Command::Detach { page } => write_on_page(writer, 6, *page),
        Command::Copy {
            page,
            parent,
            slug,
            deep,
        } => write_copy(writer, *page, *parent, slug, *deep),
        Command::OpenDesk { page } => write_on_page(writer, 8, *page),
        Command::SaveDesk { page, content } => write_save(writer, *page, content),
        Command::ShutDesk { page } => write_on_page(writer, 10, *page),
        Command::File {
            page,
            go_live,
            expire,
        } => write_file(writer, *page, *go_live, *expire),
        Command::Publish { page } => write_on_page(writer, 12, *page),
        Command::Unpublish { page } => write_on_page(writer, 13, *page),
        Command::Unschedule { page } => write_on_page(writer, 14, *page),
        Command::Lock { page } => write_on_page(writer, 15, *page),
        Command::Unlock { page } => write_on_page(writer, 16, *page),
        Command::Purge { page } => write_on_page(writer, 17, *page),
        Command::DefineTask { groups } => write_ids(writer, 18, groups),
        Command::DefineWorkflow { tasks } => write_ids(writer, 19, tasks),
        Command::Assign { page, workflow } => write_assign(writer, *page, *workflow),
        Command::Submit { page } => write_on_page(writer, 21, *page),
        Command::Approve { page } => write_on_page(writer, 22, *page),
        Command::Reject { page } => write_on_page(writer, 23, *page),
        Command::Cancel { page } => write_on_page(writer, 24, *page),
        Command::DefineUser { superuser, digest } => write_define_user(writer, *superuser, digest),
        Command::DefineGroup => writer.byte(26),
        Command::Member { user, group, on } => write_member(writer, *user, *group, *on),
        Command::Grant {
            group,
            page,
            permission,
            on,
        } => write_grant(writer, *group, *page, *permission, *on),
        Command::Tick => writer.byte(29),
    }
}
