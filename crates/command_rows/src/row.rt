//! What the first rules of a command look at: its pages, and whom a lock or a moderation stops.
ghost use Rattle.std.specs.Prelude.{◌≡◌};
ghost use Rattle.site_model.specs.Front as front;
ghost use Rattle.command_rows.specs.Rows.{seen_row, pages_in, seen_stops};

use page_store::is_beside;
use site_types::{Command, PageId, Position};

/// Whom a lock or a moderation of the page keeps from a command.
#[derive(Debug, Drop)]
pub enum Stops {
    /// Nobody.
    Nobody,
    /// All but the one who locked it, or all but who is asked by the task.
    Others,
    /// Everybody.
    Everyone,
}

/// Pages that a command names, in the order in which they are looked for.
#[derive(Debug, Drop)]
pub enum Named {
    /// None.
    Nothing,
    /// One page.
    One(PageId),
    /// Two pages.
    Two(PageId, PageId),
}

/// The row of a command: what its first rules look at.
#[derive(Debug, Drop)]
pub struct CommandRow {
    /// The pages that have to be there.
    pub named: Named,
    /// Those of them that may not be the root.
    pub below_root: Named,
    /// The page whose lock, kind and moderation are looked at.
    pub page: Option<PageId>,
    /// Whom its lock stops.
    pub lock: Stops,
    /// Whether it may not be an alias.
    pub alias: bool,
    /// Whom its moderation stops.
    pub moderation: Stops,
}

/// A command that names pages, of which no lock, kind or moderation is asked.
fn naming(named: Named, below_root: Named) -> CommandRow
    ensures { seen_row result ≡ front.naming (pages_in named) (pages_in below_root) }
{
    CommandRow {
        named,
        below_root,
        page: None,
        lock: Stops::Nobody,
        alias: false,
        moderation: Stops::Nobody,
    }
}

/// A command on one page below the root.
fn on_page(page: PageId, lock: Stops, alias: bool, moderation: Stops) -> CommandRow
    ensures { seen_row result ≡ front.on_page page (seen_stops lock) alias (seen_stops moderation) }
{
    CommandRow {
        named: Named::One(page),
        below_root: Named::One(page),
        page: Some(page),
        lock,
        alias,
        moderation,
    }
}

/// A move of a page by a target, which may be the root if it is to be the parent.
fn on_move(page: PageId, target: PageId, position: Position) -> CommandRow
    ensures { seen_row result ≡ front.on_move page target position }
{
    let below_root = if is_beside(position) {
        Named::Two(page, target)
    } else {
        Named::One(page)
    };
    CommandRow {
        named: Named::Two(page, target),
        below_root,
        page: Some(page),
        lock: Stops::Others,
        alias: false,
        moderation: Stops::Nobody,
    }
}

/// The row of a command.
pub fn row_of(command: &Command) -> CommandRow
    ensures { seen_row result ≡ front.row_of command.now }
{
    match command {
        Command::Create { parent, .. } => naming(Named::One(*parent), Named::Nothing),
        Command::Move {
            page,
            target,
            position,
        } => on_move(*page, *target, *position),
        Command::Delete { page } => on_page(*page, Stops::Others, false, Stops::Nobody),
        Command::SetSlug { page, .. } => on_page(*page, Stops::Others, false, Stops::Others),
        Command::Alias { source, parent, .. } => {
            naming(Named::Two(*source, *parent), Named::One(*source))
        }
        Command::Detach { page } => naming(Named::One(*page), Named::One(*page)),
        Command::Copy { page, parent, .. } => {
            naming(Named::Two(*page, *parent), Named::One(*page))
        }
        Command::OpenDesk { page } => on_page(*page, Stops::Others, true, Stops::Others),
        Command::SaveDesk { .. } => naming(Named::Nothing, Named::Nothing),
        Command::ShutDesk { .. } => naming(Named::Nothing, Named::Nothing),
        Command::File { .. } => naming(Named::Nothing, Named::Nothing),
        Command::Publish { page } => on_page(*page, Stops::Others, true, Stops::Others),
        Command::Unpublish { page } => on_page(*page, Stops::Others, true, Stops::Nobody),
        Command::Unschedule { page } => on_page(*page, Stops::Others, true, Stops::Nobody),
        Command::Lock { page } => on_page(*page, Stops::Everyone, true, Stops::Nobody),
        Command::Unlock { page } => on_page(*page, Stops::Nobody, false, Stops::Nobody),
        Command::Purge { page } => on_page(*page, Stops::Others, true, Stops::Nobody),
        Command::DefineTask { .. } => naming(Named::Nothing, Named::Nothing),
        Command::DefineWorkflow { .. } => naming(Named::Nothing, Named::Nothing),
        Command::Assign { page, .. } => naming(Named::One(*page), Named::Nothing),
        Command::Submit { page } => on_page(*page, Stops::Others, true, Stops::Everyone),
        Command::Approve { page } => on_page(*page, Stops::Nobody, false, Stops::Nobody),
        Command::Reject { page } => on_page(*page, Stops::Nobody, false, Stops::Nobody),
        Command::Cancel { page } => on_page(*page, Stops::Nobody, false, Stops::Nobody),
        Command::DefineUser { .. } => naming(Named::Nothing, Named::Nothing),
        Command::DefineGroup => naming(Named::Nothing, Named::Nothing),
        Command::Member { .. } => naming(Named::Nothing, Named::Nothing),
        Command::Grant { page, .. } => naming(Named::One(*page), Named::Nothing),
        Command::Tick => naming(Named::Nothing, Named::Nothing),
    }
}
