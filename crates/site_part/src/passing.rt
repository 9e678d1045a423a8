//! The first six rules of every command: the pages that it names, its caller, and the lock, the kind
//! and the moderation of its page.
ghost use Rattle.std.specs.Prelude.{◌≡◌, ◌==◌, Some, IfSome};
ghost use Rattle.std.specs.List.{list_any};
ghost use Rattle.page_tree.specs.Tree.{Forest};
ghost use Rattle.page_tree.specs.Rows.{rows_of};
ghost use Rattle.site_types.specs.declared.body.Body.{Body as PageBody};
ghost use Rattle.site_model.specs.World as worlds;
ghost use Rattle.site_model.specs.Rights as rights;
ghost use Rattle.site_model.specs.Rules as rules;
ghost use Rattle.site_model.specs.Views as views;
ghost use Rattle.site_model.specs.Front as fronts;
ghost use Rattle.command_rows.specs.Rows.{pages_in, seen_row, seen_stops};
ghost use Rattle.workflow.specs.Flows.{IsCounted};
ghost use Rattle.workflow.specs.Stages.{stage_seen};
ghost use Rattle.grants.specs.Lists.{ListsStandFor};
ghost use Rattle.site_part.specs.Standing.{IsReady, StandsFor};
ghost use Rattle.site_part.specs.Needs.{rule_told};
ghost use Rattle.site_part.specs.Stopping.{stops_of, alias_rule};

use crate::TreePart;
use crate::need::may;
use command_rows::{CommandRow, Named, Stops, row_of};
use grants::Grants;
use page_store::Rows;
use site_types::{Command, Moderation, PageId, Refusal, UserId};
use workflow::Stage;

/// Whether the first six rules let a command pass, or the first of them that refuses it: each page
/// that it names is there; none is the root that may not be; the caller has the rights; and neither
/// the lock, nor the kind, nor the moderation of its page stops it.
///
/// It costs a look-up for each page that is named, what `may` costs, and for a moderated page at most 16
/// searches among the caller's groups.
pub fn front(part: &TreePart, caller: UserId, command: &Command) -> Result<(), Refusal>
    requires { (world : worlds.TreePart) × IsReady part.now world }
    ensures { (world : worlds.TreePart) → StandsFor part.now world
        → result ≡ rule_told (fronts.front_rules world caller command.now) }
{
    let row = row_of(command);
    if let Some(refusal) = missing(&part.rows, &row.named) {
        return Err(refusal);
    }
    if has_root(&row.below_root) {
        return Err(Refusal::IsRoot);
    }
    if let Err(need) = may(part, caller, command) {
        return Err(Refusal::Denied(need.number));
    }
    match stopped(part, caller, &row) {
        Some(refusal) => Err(refusal),
        None => Ok(()),
    }
}

/// The first of these pages that is not there. A look-up for each.
fn missing(rows: &Rows, named: &Named) -> Option<Refusal>
    ensures { (tree : Forest PageBody) → rows.now.pages ≡ rows_of tree
        → result ≡ rules.no_pages tree (pages_in named.now) }
{
    match named {
        Named::Nothing => None,
        Named::One(page) => absent(rows, *page),
        Named::Two(page, other) => match absent(rows, *page) {
            Some(refusal) => Some(refusal),
            None => absent(rows, *other),
        },
    }
}

/// That a page is not there.
fn absent(rows: &Rows, page: PageId) -> Option<Refusal>
    ensures { (tree : Forest PageBody) → rows.now.pages ≡ rows_of tree
        → result ≡ rules.no_page tree page }
{
    match rows.row(page) {
        Some(_row) => None,
        None => Some(Refusal::NoPage(page)),
    }
}

/// Whether one of these pages is the root.
fn has_root(named: &Named) -> bool
    ensures { result ≡ list_any (λ id. id == 1) (pages_in named.now) }
{
    let root = PageId::root();
    match named {
        Named::Nothing => false,
        Named::One(page) => *page == root,
        Named::Two(page, other) => *page == root || *other == root,
    }
}

/// What of a command's page stops its caller: its lock, that it is an alias, or its moderation.
fn stopped(part: &TreePart, caller: UserId, row: &CommandRow) -> Option<Refusal>
    requires { (world : worlds.TreePart) × IsReady part.now world }
    ensures { (world : worlds.TreePart) → StandsFor part.now world
        → result ≡ stops_of world caller (seen_row row.now) }
{
    let Some(page) = row.page else {
        return None;
    };
    let Some(kept) = part.rows.row(page) else {
        return None;
    };
    if let Some(refusal) = locked(&row.lock, caller, kept.body.locked_by) {
        return Some(refusal);
    }
    if let Some(refusal) = aliased(row.alias, kept.body.source) {
        return Some(refusal);
    }
    in_moderation(part, caller, &row.moderation, kept.body.moderation)
}

/// That a moderation of the page stops the caller. Three look-ups, and at most 16 searches.
fn in_moderation(
    part: &TreePart,
    caller: UserId,
    stops: &Stops,
    moderation: Option<Moderation>,
) -> Option<Refusal>
    requires { IfSome moderation (IsCounted part.now.flows.workflows) }
    ensures { (world : worlds.TreePart) → StandsFor part.now world
        → result ≡ fronts.in_moderation (seen_stops stops.now) (rights.rights_of world caller)
        (views.stage_of world moderation) }
{
    let Some(moderation) = moderation else {
        return None;
    };
    let Some(stage) = part.flows.stage(&moderation) else {
        return None;
    };
    match stops {
        Stops::Nobody => None,
        Stops::Others => unasked(&part.grants, caller, &stage),
        Stops::Everyone => Some(Refusal::InModeration(stage.task)),
    }
}

/// That a stage of a moderation stops one who is neither a superuser nor asked by its task.
fn unasked(grants: &Grants, caller: UserId, stage: &Stage<'_>) -> Option<Refusal>
    ensures { (world : worlds.TreePart) → ListsStandFor grants.now world
        → result ≡ fronts.in_moderation fronts.StopsOthers (rights.rights_of world caller)
        (Some (stage_seen stage.now)) }
{
    if grants.is_superuser(caller) || grants.is_in_any(caller, stage.groups.as_slice()) {
        None
    } else {
        Some(Refusal::InModeration(stage.task))
    }
}

/// That a lock of the page stops the caller.
fn locked(stops: &Stops, caller: UserId, by: Option<UserId>) -> Option<Refusal>
    ensures { result ≡ fronts.locked (seen_stops stops.now) caller by }
{
    let Some(user) = by else {
        return None;
    };
    match stops {
        Stops::Nobody => None,
        Stops::Others => stopped_by(user, caller),
        Stops::Everyone => Some(Refusal::Locked(user)),
    }
}

/// That a user's lock stops any other.
fn stopped_by(user: UserId, caller: UserId) -> Option<Refusal>
    ensures { result ≡ fronts.locked fronts.StopsOthers caller (Some user) }
{
    if user == caller {
        None
    } else {
        Some(Refusal::Locked(user))
    }
}

/// That the page may not be an alias, and is one.
fn aliased(refuses: bool, source: Option<PageId>) -> Option<Refusal>
    ensures { result ≡ alias_rule refuses source }
{
    if refuses && source.is_some() {
        Some(Refusal::IsAlias)
    } else {
        None
    }
}
