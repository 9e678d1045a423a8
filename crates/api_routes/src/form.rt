//! The commands that JSON values ask for, by their forms.
ghost use Rattle.std.specs.Prelude.{◌≡◌};
ghost use Rattle.serde_json.specs.View.{view};
ghost use Rattle.block_content.specs.Reads.{Reads};
ghost use Rattle.wire_model.specs.Forms.{command_in, creation_in, move_in, slug_change_in, alias_in, copy_in, saving_in, filing_in, page_command_in, command_on, user_definition_in, group_definition_in, membership_in, grant_in, tick_in, task_definition_in, workflow_definition_in, assignment_in};

use crate::ids::{groups_at, ids_at};
use crate::member::{
    content_at, digest_at, group_at, id_at, permission_at, position_at, slug_at, time_at, truth_at,
    user_at, workflow_at,
};
use block_content::ContentFault;
use block_content::members::has_exactly;
use serde_json::Value;
use site_types::{Command, LAST_TASK_ID, PageId};
use std::alloc::Global;
use wire_model::{CommandForm, PageVerb};

/// The command of a form that a value asks for. A creation, a saving, and the definitions of tasks
/// and workflows take memory, and no other.
pub(crate) fn command_in(
    alloc: Global,
    form: CommandForm,
    value: &Value,
) -> Result<Command, ContentFault>
    ensures { Reads result (command_in form (view value.now)) }
{
    match form {
        CommandForm::Create => creation_in(alloc, value),
        CommandForm::Move => or_bad(move_in(value)),
        CommandForm::SetSlug => or_bad(slug_change_in(value)),
        CommandForm::Alias => or_bad(alias_in(value)),
        CommandForm::Copy => or_bad(copy_in(value)),
        CommandForm::OnPage(verb) => or_bad(page_command_in(verb, value)),
        CommandForm::Save => saving_in(alloc, value),
        CommandForm::File => or_bad(filing_in(value)),
        CommandForm::DefineUser => or_bad(user_definition_in(value)),
        CommandForm::DefineGroup => or_bad(group_definition_in(value)),
        CommandForm::Member => or_bad(membership_in(value)),
        CommandForm::Grant => or_bad(grant_in(value)),
        CommandForm::Tick => or_bad(tick_in(value)),
        CommandForm::DefineTask => task_definition_in(alloc, value),
        CommandForm::DefineWorkflow => workflow_definition_in(alloc, value),
        CommandForm::Assign => or_bad(assignment_in(value)),
    }
}

/// A command if there is one, and otherwise that the value is not of the form.
fn or_bad(command: Option<Command>) -> Result<Command, ContentFault>
    ensures { Reads result command }
{
    match command {
        Some(command) => Ok(command),
        None => Err(ContentFault::Bad),
    }
}

/// The creation that a value asks for.
fn creation_in(alloc: Global, value: &Value) -> Result<Command, ContentFault>
    ensures { Reads result (creation_in (view value.now)) }
{
    if !has_exactly(value, &["content", "parent", "slug"]) {
        return Err(ContentFault::Bad);
    }
    let Some(parent) = id_at(value, "parent") else {
        return Err(ContentFault::Bad);
    };
    let Some(slug) = slug_at(value) else {
        return Err(ContentFault::Bad);
    };
    let content = content_at(alloc, value)?;
    Ok(Command::Create {
        parent,
        slug,
        content,
    })
}

/// The move that a value asks for.
fn move_in(value: &Value) -> Option<Command>
    ensures { result ≡ move_in (view value.now) }
{
    if !has_exactly(value, &["page", "position", "target"]) {
        return None;
    }
    let page = id_at(value, "page")?;
    let target = id_at(value, "target")?;
    let position = position_at(value)?;
    Some(Command::Move {
        page,
        target,
        position,
    })
}

/// The change of a slug that a value asks for.
fn slug_change_in(value: &Value) -> Option<Command>
    ensures { result ≡ slug_change_in (view value.now) }
{
    if !has_exactly(value, &["page", "slug"]) {
        return None;
    }
    let page = id_at(value, "page")?;
    let slug = slug_at(value)?;
    Some(Command::SetSlug { page, slug })
}

/// The alias that a value asks for.
fn alias_in(value: &Value) -> Option<Command>
    ensures { result ≡ alias_in (view value.now) }
{
    if !has_exactly(value, &["parent", "slug", "source"]) {
        return None;
    }
    let source = id_at(value, "source")?;
    let parent = id_at(value, "parent")?;
    let slug = slug_at(value)?;
    Some(Command::Alias {
        source,
        parent,
        slug,
    })
}

/// The copy that a value asks for.
fn copy_in(value: &Value) -> Option<Command>
    ensures { result ≡ copy_in (view value.now) }
{
    if !has_exactly(value, &["deep", "page", "parent", "slug"]) {
        return None;
    }
    let page = id_at(value, "page")?;
    let parent = id_at(value, "parent")?;
    let slug = slug_at(value)?;
    let deep = truth_at(value, "deep")?;
    Some(Command::Copy {
        page,
        parent,
        slug,
        deep,
    })
}

/// The saving of a text at a desk that a value asks for.
fn saving_in(alloc: Global, value: &Value) -> Result<Command, ContentFault>
    ensures { Reads result (saving_in (view value.now)) }
{
    if !has_exactly(value, &["content", "page"]) {
        return Err(ContentFault::Bad);
    }
    let Some(page) = id_at(value, "page") else {
        return Err(ContentFault::Bad);
    };
    let content = content_at(alloc, value)?;
    Ok(Command::SaveDesk { page, content })
}

/// The filing of the text at a desk that a value asks for.
fn filing_in(value: &Value) -> Option<Command>
    ensures { result ≡ filing_in (view value.now) }
{
    if !has_exactly(value, &["expire_at", "go_live_at", "page"]) {
        return None;
    }
    let page = id_at(value, "page")?;
    let go_live = time_at(value, "go_live_at")?;
    let expire = time_at(value, "expire_at")?;
    Some(Command::File {
        page,
        go_live,
        expire,
    })
}

/// The command of a verb on the page that a value names.
fn page_command_in(verb: PageVerb, value: &Value) -> Option<Command>
    ensures { result ≡ page_command_in verb (view value.now) }
{
    if !has_exactly(value, &["page"]) {
        return None;
    }
    let page = id_at(value, "page")?;
    Some(command_on(verb, page))
}

/// The command of a verb on a page.
fn command_on(verb: PageVerb, page: PageId) -> Command
    ensures { result ≡ command_on verb page }
{
    match verb {
        PageVerb::Delete => Command::Delete { page },
        PageVerb::Detach => Command::Detach { page },
        PageVerb::OpenDesk => Command::OpenDesk { page },
        PageVerb::ShutDesk => Command::ShutDesk { page },
        PageVerb::Publish => Command::Publish { page },
        PageVerb::Unpublish => Command::Unpublish { page },
        PageVerb::Unschedule => Command::Unschedule { page },
        PageVerb::Lock => Command::Lock { page },
        PageVerb::Unlock => Command::Unlock { page },
        PageVerb::Purge => Command::Purge { page },
        PageVerb::Submit => Command::Submit { page },
        PageVerb::Approve => Command::Approve { page },
        PageVerb::Reject => Command::Reject { page },
        PageVerb::Cancel => Command::Cancel { page },
    }
}

/// The definition of a user that a value asks for.
fn user_definition_in(value: &Value) -> Option<Command>
    ensures { result ≡ user_definition_in (view value.now) }
{
    if !has_exactly(value, &["digest", "superuser"]) {
        return None;
    }
    let digest = digest_at(value)?;
    let superuser = truth_at(value, "superuser")?;
    Some(Command::DefineUser { superuser, digest })
}

/// The definition of a group that a value asks for.
fn group_definition_in(value: &Value) -> Option<Command>
    ensures { result ≡ group_definition_in (view value.now) }
{
    has_exactly(value, &[]).then_some(Command::DefineGroup)
}

/// The membership, or its end, that a value asks for.
fn membership_in(value: &Value) -> Option<Command>
    ensures { result ≡ membership_in (view value.now) }
{
    if !has_exactly(value, &["group", "on", "user"]) {
        return None;
    }
    let user = user_at(value)?;
    let group = group_at(value)?;
    let on = truth_at(value, "on")?;
    Some(Command::Member { user, group, on })
}

/// The grant, or its end, that a value asks for.
fn grant_in(value: &Value) -> Option<Command>
    ensures { result ≡ grant_in (view value.now) }
{
    if !has_exactly(value, &["group", "on", "page", "permission"]) {
        return None;
    }
    let group = group_at(value)?;
    let page = id_at(value, "page")?;
    let permission = permission_at(value)?;
    let on = truth_at(value, "on")?;
    Some(Command::Grant {
        group,
        page,
        permission,
        on,
    })
}

/// The tick that a value asks for.
fn tick_in(value: &Value) -> Option<Command>
    ensures { result ≡ tick_in (view value.now) }
{
    has_exactly(value, &[]).then_some(Command::Tick)
}

/// The definition of a task that a value asks for.
fn task_definition_in(alloc: Global, value: &Value) -> Result<Command, ContentFault>
    ensures { Reads result (task_definition_in (view value.now)) }
{
    if !has_exactly(value, &["groups"]) {
        return Err(ContentFault::Bad);
    }
    let groups = groups_at(alloc, value)?;
    Ok(Command::DefineTask { groups })
}

/// The definition of a workflow that a value asks for.
fn workflow_definition_in(alloc: Global, value: &Value) -> Result<Command, ContentFault>
    ensures { Reads result (workflow_definition_in (view value.now)) }
{
    if !has_exactly(value, &["tasks"]) {
        return Err(ContentFault::Bad);
    }
    let tasks = ids_at(alloc, value, "tasks", LAST_TASK_ID)?;
    Ok(Command::DefineWorkflow { tasks })
}

/// The workflow of a page, or its end, that a value asks for.
fn assignment_in(value: &Value) -> Option<Command>
    ensures { result ≡ assignment_in (view value.now) }
{
    if !has_exactly(value, &["page", "workflow"]) {
        return None;
    }
    let page = id_at(value, "page")?;
    let workflow = workflow_at(value)?;
    Some(Command::Assign { page, workflow })
}
