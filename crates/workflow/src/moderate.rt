//! What an event makes of a page's moderation (Wagtail, workflows).
ghost use Rattle.std.specs.Prelude.{◌≡◌, ◌≤◌, Some, length};
ghost use Rattle.site_model.specs.Limits.{MAX_NAMED};
ghost use Rattle.site_model.specs.Views.{list_at};
ghost use Rattle.site_model.specs.Moderations.{WasApproved, WasRejected, WasCancelled};
ghost use Rattle.site_model.specs.Moderations.{WasPublished, WasFiled, begun, moderated, advanced};
ghost use Rattle.site_model.specs.Moderations.{at_status};
ghost use Rattle.site_types.specs.declared.moderation.ModerationStatus.TheVariants.{Cancelled};
ghost use Rattle.workflow.specs.Flows.{gone_on};

use crate::Flows;
use crate::look_up::numbered;
use site_types::{Moderation, ModerationStatus, RevisionId, UserId, WorkflowId};

impl Flows {
    /// The moderation that begins at the first task of a workflow.
    pub fn start(&self, workflow: WorkflowId, revision: RevisionId, by: UserId) -> Moderation
        ensures { result ≡ begun workflow revision by }
    {
        Moderation {
            workflow,
            task: 1,
            status: ModerationStatus::InProgress,
            revision,
            by,
        }
    }

    /// The moderation after its current task is approved: at the next task, or approved if that was
    /// the last. `None` exactly if it is not in progress. One look-up.
    pub fn approve(&self, moderation: &Moderation) -> Option<Moderation>
        ensures { result ≡ moderated self.now.workflows WasApproved (Some moderation.now) }
    {
        match moderation.status {
            ModerationStatus::InProgress => {
                let count = self.length(moderation.workflow);
                Some(advance(*moderation, count))
            }
            ModerationStatus::Approved => None,
            ModerationStatus::NeedsChanges => None,
            ModerationStatus::Cancelled => None,
        }
    }

    /// The moderation after its current task is rejected: it needs changes there. `None` exactly if
    /// it is not in progress.
    pub fn reject(&self, moderation: &Moderation) -> Option<Moderation>
        ensures { result ≡ moderated self.now.workflows WasRejected (Some moderation.now) }
    {
        match moderation.status {
            ModerationStatus::InProgress => Some(Moderation {
                status: ModerationStatus::NeedsChanges,
                ..*moderation
            }),
            ModerationStatus::Approved => None,
            ModerationStatus::NeedsChanges => None,
            ModerationStatus::Cancelled => None,
        }
    }

    /// The moderation that goes on at the task where it needed changes, with this revision and
    /// submitted by this user. `None` exactly if it does not need changes.
    pub fn resume(
        &self,
        moderation: &Moderation,
        revision: RevisionId,
        by: UserId,
    ) -> Option<Moderation>
        ensures { result ≡ gone_on self.now.workflows revision by moderation.now }
    {
        match moderation.status {
            ModerationStatus::InProgress => None,
            ModerationStatus::Approved => None,
            ModerationStatus::NeedsChanges => Some(Moderation {
                status: ModerationStatus::InProgress,
                revision,
                by,
                ..*moderation
            }),
            ModerationStatus::Cancelled => None,
        }
    }

    /// The moderation after it was given up, or after its page was published by a command. `None`
    /// exactly if it is neither in progress nor needs changes.
    pub fn cancel(&self, moderation: &Moderation) -> Option<Moderation>
        ensures cancelled { result
            ≡ moderated self.now.workflows WasCancelled (Some moderation.now) }
        ensures published { result
            ≡ moderated self.now.workflows WasPublished (Some moderation.now) }
    {
        match moderation.status {
            ModerationStatus::InProgress => Some(cancelled(*moderation)),
            ModerationStatus::Approved => None,
            ModerationStatus::NeedsChanges => Some(cancelled(*moderation)),
            ModerationStatus::Cancelled => None,
        }
    }

    /// The moderation after a revision of its page was filed: the moderated revision is then that
    /// one. `None` exactly if it is not in progress.
    pub fn filed(&self, moderation: &Moderation, revision: RevisionId) -> Option<Moderation>
        ensures { result ≡ moderated self.now.workflows (WasFiled revision) (Some moderation.now) }
    {
        match moderation.status {
            ModerationStatus::InProgress => Some(Moderation {
                revision,
                ..*moderation
            }),
            ModerationStatus::Approved => None,
            ModerationStatus::NeedsChanges => None,
            ModerationStatus::Cancelled => None,
        }
    }

    /// The number of tasks of a workflow, at most 16, or 0 if there is no such workflow.
    fn length(&self, workflow: WorkflowId) -> u8
        ensures value { result ≡ length (list_at self.now.workflows workflow) }
        ensures range { result ≤ MAX_NAMED }
    {
        match numbered(&self.workflows, workflow.get()) {
            Some(tasks) => tasks.len() as u8,
            None => 0,
        }
    }
}

/// The moderation after its current task of so many is approved.
fn advance(moderation: Moderation, count: u8) -> Moderation
    ensures { result ≡ advanced count moderation }
{
    if moderation.task < count {
        Moderation {
            task: moderation.task + 1,
            ..moderation
        }
    } else {
        Moderation {
            status: ModerationStatus::Approved,
            ..moderation
        }
    }
}

/// The moderation after it was given up.
fn cancelled(moderation: Moderation) -> Moderation
    ensures { result ≡ at_status Cancelled moderation }
{
    Moderation {
        status: ModerationStatus::Cancelled,
        ..moderation
    }
}
