//! What a command needs of its caller.
ghost use Rattle.std.specs.Prelude.{◌≡◌};
ghost use Rattle.command_rows.specs.Needs.{need_row_of};

use site_types::{Command, PageId, Permission, Position};

/// What a command needs of its caller: the kinds of needs, each with the pages that it looks at.
#[derive(Debug, Drop)]
pub enum NeedRow {
    /// Nothing: the caller's own desk is the right.
    Nothing,
    /// To be a superuser.
    Superuser,
    /// To add a page below this one.
    Add(PageId),
    /// To take a page away with all below it, and to add it beside or below a target.
    Move(PageId, PageId, Position),
    /// To take a page away with all below it.
    Delete(PageId),
    /// To edit a page, and to publish it if it or a page below it is live.
    Rename(PageId),
    /// To add an alias of a page below another.
    Alias(PageId, PageId),
    /// To edit a page, and to publish it if it is live.
    Detach(PageId),
    /// To edit a page.
    Edit(PageId),
    /// To hold a permission at a page.
    Hold(Permission, PageId),
    /// To have locked a page, or to unlock pages there.
    Unlock(PageId),
    /// To be asked by the task of a page's moderation.
    Answer(PageId),
    /// To have submitted a page's moderation, or to publish there.
    Cancel(PageId),
}

/// What a command needs of its caller. It stands for the needs of the model: `needs_are_seen`.
pub fn need_row(command: &Command) -> NeedRow
    ensures { result ≡ need_row_of command.now }
{
    match command {
        Command::Create { parent, .. } => NeedRow::Add(*parent),
        Command::Move {
            page,
            target,
            position,
        } => NeedRow::Move(*page, *target, *position),
        Command::Delete { page } => NeedRow::Delete(*page),
        Command::SetSlug { page, .. } => NeedRow::Rename(*page),
        Command::Alias { source, parent, .. } => NeedRow::Alias(*source, *parent),
        Command::Detach { page } => NeedRow::Detach(*page),
        Command::Copy { parent, .. } => NeedRow::Add(*parent),
        Command::OpenDesk { page } => NeedRow::Edit(*page),
        Command::SaveDesk { .. } => NeedRow::Nothing,
        Command::ShutDesk { .. } => NeedRow::Nothing,
        Command::File { .. } => NeedRow::Nothing,
        Command::Publish { page } => NeedRow::Hold(Permission::Publish, *page),
        Command::Unpublish { page } => NeedRow::Hold(Permission::Publish, *page),
        Command::Unschedule { page } => NeedRow::Hold(Permission::Publish, *page),
        Command::Lock { page } => NeedRow::Hold(Permission::Lock, *page),
        Command::Unlock { page } => NeedRow::Unlock(*page),
        Command::Purge { page } => NeedRow::Edit(*page),
        Command::DefineTask { .. } => NeedRow::Superuser,
        Command::DefineWorkflow { .. } => NeedRow::Superuser,
        Command::Assign { .. } => NeedRow::Superuser,
        Command::Submit { page } => NeedRow::Edit(*page),
        Command::Approve { page } => NeedRow::Answer(*page),
        Command::Reject { page } => NeedRow::Answer(*page),
        Command::Cancel { page } => NeedRow::Cancel(*page),
        Command::DefineUser { .. } => NeedRow::Superuser,
        Command::DefineGroup => NeedRow::Superuser,
        Command::Member { .. } => NeedRow::Superuser,
        Command::Grant { .. } => NeedRow::Superuser,
        Command::Tick => NeedRow::Superuser,
    }
}
