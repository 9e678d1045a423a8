//! What becomes of the moderation of a page, whether it has one or not.
ghost use Rattle.std.specs.Prelude.{◌≡◌, IsSome, option_and_then};
ghost use Rattle.std.specs.Option.{option_copied, option_map};
ghost use Rattle.page_tree.specs.Rows.{rows_of, row_with};
ghost use Rattle.site_model.specs.World.{TreePart};
ghost use Rattle.site_model.specs.Moderations.{WasApproved, WasRejected, WasCancelled, moderated};
ghost use Rattle.site_model.specs.Moderations.{begun, after_filing, after_publishing};
ghost use Rattle.site_model.specs.Moderating.{nearest_workflow};
ghost use Rattle.workflow.specs.Flows.{gone_on};
ghost use Rattle.moderating.specs.Events.{submitted};

use crate::nearest::nearest_workflow;
use page_store::Rows;
use site_types::{Body, Moderation, PageId, RevisionId, UserId};
use workflow::Flows;

/// The moderation of a page with these fields after a revision of it was filed: it is then about that
/// one if it is in progress, and else as it was.
pub fn after_filing(flows: &Flows, body: &Body, revision: RevisionId) -> Option<Moderation>
    ensures { result ≡ after_filing revision body.now.moderation }
{
    let Some(moderation) = body.moderation else {
        return None;
    };
    match flows.filed(&moderation, revision) {
        Some(filed) => Some(filed),
        None => body.moderation,
    }
}

/// The moderation of a page with these fields after it was published by a command: it is given up if it
/// was not over.
pub fn after_publishing(flows: &Flows, body: &Body) -> Option<Moderation>
    ensures { result ≡ after_publishing body.now.moderation }
{
    let Some(moderation) = body.moderation else {
        return None;
    };
    match flows.cancel(&moderation) {
        Some(cancelled) => Some(cancelled),
        None => body.moderation,
    }
}

/// The moderation after its current task was approved, or `None` exactly if none is in progress.
pub(crate) fn approved(flows: &Flows, body: &Body) -> Option<Moderation>
    ensures { result ≡ moderated flows.now.workflows WasApproved body.now.moderation }
{
    match body.moderation {
        Some(moderation) => flows.approve(&moderation),
        None => None,
    }
}

/// The moderation after its current task was rejected, or `None` exactly if none is in progress.
pub(crate) fn rejected(flows: &Flows, body: &Body) -> Option<Moderation>
    ensures { result ≡ moderated flows.now.workflows WasRejected body.now.moderation }
{
    match body.moderation {
        Some(moderation) => flows.reject(&moderation),
        None => None,
    }
}

/// The moderation after it was given up, or `None` exactly if none is in progress or needs changes.
pub(crate) fn cancelled(flows: &Flows, body: &Body) -> Option<Moderation>
    ensures { result ≡ moderated flows.now.workflows WasCancelled body.now.moderation }
{
    match body.moderation {
        Some(moderation) => flows.cancel(&moderation),
        None => None,
    }
}

/// The moderation of a page with these fields that is submitted with this revision by this user: one
/// that needs changes goes on, and else one begins at the nearest workflow. `None` exactly if there is no
/// workflow to begin at.
pub(crate) fn submitted(
    rows: &Rows,
    flows: &Flows,
    page: PageId,
    body: &Body,
    revision: RevisionId,
    by: UserId,
) -> Option<Moderation>
    requires { IsSome (row_with page rows.now.pages) }
    ensures { (part : TreePart) → rows.now.pages ≡ rows_of part.tree
        → flows.now.workflows ≡ part.workflows
        → result ≡ submitted part page revision by body.now.moderation }
{
    match resumed(flows, body, revision, by) {
        Some(moderation) => Some(moderation),
        None => started(rows, flows, page, revision, by),
    }
}

/// The moderation that goes on if it needs changes, or `None` exactly if none does.
fn resumed(flows: &Flows, body: &Body, revision: RevisionId, by: UserId) -> Option<Moderation>
    ensures { result
        ≡ option_and_then (gone_on flows.now.workflows revision by) body.now.moderation }
{
    match body.moderation {
        Some(moderation) => flows.resume(&moderation, revision, by),
        None => None,
    }
}

/// The moderation that begins at the nearest workflow, or `None` exactly if there is none.
fn started(
    rows: &Rows,
    flows: &Flows,
    page: PageId,
    revision: RevisionId,
    by: UserId,
) -> Option<Moderation>
    requires { IsSome (row_with page rows.now.pages) }
    ensures { (part : TreePart) → rows.now.pages ≡ rows_of part.tree
        → result
        ≡ option_map (λ workflow. begun workflow revision by) (nearest_workflow part page) }
{
    match nearest_workflow(rows, page) {
        Some(workflow) => Some(flows.start(workflow, revision, by)),
        None => None,
    }
}
