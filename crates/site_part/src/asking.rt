//! Who is asked by the current task of a moderation.
ghost use Rattle.std.specs.Prelude.{◌≡◌};
ghost use Rattle.site_model.specs.World.{TreePart};
ghost use Rattle.site_model.specs.Rights as rights;
ghost use Rattle.site_model.specs.Views as views;
ghost use Rattle.workflow.specs.Flows.{FlowsStandFor};
ghost use Rattle.grants.specs.Lists.{ListsStandFor};
ghost use Rattle.site_part.specs.Needs.{answers};

use grants::Grants;
use site_types::{Body, Moderation, ModerationStatus, UserId};
use workflow::Flows;

/// Whether a user moderates a page of which this is kept: its moderation is in progress, and the
/// user is a member of a group of the current task. At most 16 searches.
pub fn moderates(grants: &Grants, flows: &Flows, user: UserId, body: &Body) -> bool
    ensures { (part : TreePart) → ListsStandFor grants.now part → FlowsStandFor flows.now part
        → result ≡ views.moderates (rights.rights_of part user)
        (views.stage_of part body.now.moderation) }
{
    match body.moderation {
        Some(moderation) => grants.is_in_any(user, flows.groups_asked(&moderation)),
        None => false,
    }
}

/// Whether a user may answer the moderation of a page of which this is kept: if it is in progress,
/// only members of a group of the current task may. At most 16 searches.
pub(crate) fn may_answer(grants: &Grants, flows: &Flows, user: UserId, body: &Body) -> bool
    ensures { (part : TreePart) → ListsStandFor grants.now part → FlowsStandFor flows.now part
        → result ≡ answers (rights.rights_of part user)
        (views.stage_of part body.now.moderation) }
{
    match body.moderation {
        Some(moderation) => {
            !is_in_progress(&moderation) || grants.is_in_any(user, flows.groups_asked(&moderation))
        }
        None => true,
    }
}

/// Whether a moderation is in progress.
fn is_in_progress(moderation: &Moderation) -> bool
    ensures { result ≡ views.is_in_progress moderation.now.status }
{
    match moderation.status {
        ModerationStatus::InProgress => true,
        ModerationStatus::Approved => false,
        ModerationStatus::NeedsChanges => false,
        ModerationStatus::Cancelled => false,
    }
}
