//! Moderations of pages.
use site_ids::{RevisionId, UserId, WorkflowId};

/// How far a moderation has come.
#[derive(Clone, Copy, Debug, PartialEq, Eq)]
pub enum ModerationStatus {
    /// It waits for an answer at its task.
    InProgress,
    /// Its last task was approved.
    Approved,
    /// Its task was rejected, and changes are awaited.
    NeedsChanges,
    /// It was given up.
    Cancelled,
}

/// The run of one page through the tasks of a workflow.
#[derive(Clone, Copy, Debug, PartialEq, Eq)]
pub struct Moderation {
    /// The workflow that it runs through.
    pub workflow: WorkflowId,
    /// The place of the current task in the workflow, counted from 1; at most 16.
    pub task: u8,
    /// How far it has come.
    pub status: ModerationStatus,
    /// The moderated revision.
    pub revision: RevisionId,
    /// Who submitted it.
    pub by: UserId,
}
