//! The revision that the last approval publishes, and whether a revision comes too late.
ghost use Rattle.std.specs.Prelude.{◌≡◌, ◌||◌, Some};
ghost use Rattle.std.specs.Option.{option_copied};
ghost use Rattle.site_model.specs.World.{TreePart};
ghost use Rattle.site_model.specs.Moderating.{approved_revision, body_published};
ghost use Rattle.site_model.specs.Publishing as model;
ghost use Rattle.moderating.specs.Events.{is_any_late};

use publishing::{has_expired, published_body};
use revision_shelf::Shelf;
use site_types::{Body, Moderation, ModerationStatus, Moment, Revision};

/// The revision that an approval publishes if it leaves this moderation, or `None` exactly if it is not
/// approved. One look-up.
pub(crate) fn approved_revision<'s>(
    shelf: &'s Shelf,
    moderation: &Moderation,
) -> Option<&'s Revision>
    ensures { (part : TreePart) → shelf.now.revisions ≡ part.revisions
        → option_copied result ≡ approved_revision part (Some moderation.now) }
{
    match moderation.status {
        ModerationStatus::Approved => shelf.get(moderation.revision),
        ModerationStatus::InProgress => None,
        ModerationStatus::NeedsChanges => None,
        ModerationStatus::Cancelled => None,
    }
}

/// Whether there is a revision that has expired, or would expire before it goes live.
pub(crate) fn is_any_late(time: Moment, revision: Option<&Revision>) -> bool
    ensures { result ≡ is_any_late time (option_copied revision.entry) }
{
    match revision {
        Some(revision) => is_late(time, revision),
        None => false,
    }
}

/// A page with these fields after a revision was published, if there is one.
pub(crate) fn body_published(body: &Body, revision: Option<&Revision>, time: Moment) -> Body
    ensures { result ≡ body_published time (option_copied revision.entry) body.now }
{
    match revision {
        Some(revision) => published_body(revision, body, time),
        None => *body,
    }
}

/// Whether a revision has expired, or would expire before it goes live.
pub fn is_late(time: Moment, revision: &Revision) -> bool
    ensures { result ≡ (model.has_expired time revision.now || model.expires_first revision.now) }
{
    has_expired(revision, time) || expires_first(revision)
}

/// Whether a revision would expire before it goes live, or as it does.
fn expires_first(revision: &Revision) -> bool
    ensures { result ≡ model.expires_first revision.now }
{
    match revision.go_live {
        Some(go_live) => has_expired(revision, go_live),
        None => false,
    }
}
