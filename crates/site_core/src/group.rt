//! The groups that commands are prepared in.
ghost use Rattle.std.specs.Prelude.{◌≡◌};
ghost use Rattle.site_core.specs.Groups.{group_of};

use site_types::Command;

/// The commands that are prepared together.
#[derive(Clone, Copy)]
pub(crate) enum Group {
    /// Those on the tree.
    Tree,
    /// Those on drafts, publishing, locks, revisions and moderation, and on users, groups and rights.
    Flow,
    /// The one that saves a desk.
    Save,
}

/// The group of a command.
pub(crate) fn group_of(command: &Command) -> Group
    ensures { result ≡ group_of command.now }
{
    match command {
        Command::Create { .. }
        | Command::Move { .. }
        | Command::Delete { .. }
        | Command::SetSlug { .. }
        | Command::Alias { .. }
        | Command::Detach { .. }
        | Command::Copy { .. } => Group::Tree,
        Command::OpenDesk { .. }
        | Command::ShutDesk { .. }
        | Command::File { .. }
        | Command::Publish { .. }
        | Command::Unpublish { .. }
        | Command::Unschedule { .. }
        | Command::Lock { .. }
        | Command::Unlock { .. }
        | Command::Purge { .. }
        | Command::DefineTask { .. }
        | Command::DefineWorkflow { .. }
        | Command::Assign { .. }
        | Command::Submit { .. }
        | Command::Approve { .. }
        | Command::Reject { .. }
        | Command::Cancel { .. }
        | Command::DefineUser { .. }
        | Command::DefineGroup
        | Command::Member { .. }
        | Command::Grant { .. }
        | Command::Tick => Group::Flow,
        Command::SaveDesk { .. } => Group::Save,
    }
}
