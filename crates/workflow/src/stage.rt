//! Where a moderation stands.
ghost use Rattle.std.specs.Prelude.{◌≡◌, ◌+◌, ◌≤◌, Some, length};
ghost use Rattle.std.specs.Option.{option_map};
ghost use Rattle.site_ids.specs.Ids.{IsTaskId};
ghost use Rattle.site_model.specs.World.{TreePart};
ghost use Rattle.site_model.specs.Views.{list_at, number_at, stage_of};
ghost use Rattle.site_model.specs.Sound.{IsGiven};
ghost use Rattle.workflow.specs.Flows.{FlowsStandFor, IsCounted};
ghost use Rattle.workflow.specs.Stages.{groups_asked, stage_seen};

use crate::Flows;
use crate::look_up::numbered;
use site_types::{Ids, Moderation, ModerationStatus, TaskId};

/// The current task of a moderation in progress, and the groups whose members may answer it.
#[derive(Debug, Drop)]
pub struct Stage<'f> {
    /// The task.
    pub task: TaskId,
    /// Its groups, rising.
    pub groups: &'f Ids,
}

impl Flows {
    /// Where a moderation stands, or `None` exactly if it is not in progress. Three look-ups.
    pub fn stage(&self, moderation: &Moderation) -> Option<Stage<'_>>
        requires { IsCounted self.now.workflows moderation.now }
        ensures { (part : TreePart) → FlowsStandFor self.now part
            → option_map stage_seen result ≡ stage_of part (Some moderation.now) }
    {
        match moderation.status {
            ModerationStatus::InProgress => Some(self.stage_at(moderation)),
            ModerationStatus::Approved => None,
            ModerationStatus::NeedsChanges => None,
            ModerationStatus::Cancelled => None,
        }
    }

    /// The groups whose members may answer a moderation, rising: none if it is not in progress. Two
    /// look-ups.
    pub fn groups_asked(&self, moderation: &Moderation) -> &[u32]
        ensures { (part : TreePart) → FlowsStandFor self.now part
            → result.now ≡ groups_asked (stage_of part (Some moderation.now)) }
    {
        match moderation.status {
            ModerationStatus::InProgress => self.groups_at(moderation),
            ModerationStatus::Approved => &[],
            ModerationStatus::NeedsChanges => &[],
            ModerationStatus::Cancelled => &[],
        }
    }

    /// The task at which a moderation stands, whether it is in progress or not. Two look-ups.
    pub fn current_task(&self, moderation: &Moderation) -> TaskId
        requires { IsCounted self.now.workflows moderation.now }
        ensures task { result
            ≡ number_at (list_at self.now.workflows moderation.now.workflow) moderation.now.task }
        ensures there { IsGiven (length self.now.tasks + 1) result }
    {
        match TaskId::new(self.task_number(moderation)) {
            Some(task) => task,
            None => unreachable!(),
        }
    }

    /// The groups of the task at which a moderation stands, or none if there is no such task.
    fn groups_at(&self, moderation: &Moderation) -> &[u32]
        ensures { result.now ≡ list_at self.now.tasks
            (number_at (list_at self.now.workflows moderation.now.workflow) moderation.now.task) }
    {
        let tasks = list_numbered(&self.workflows, moderation.workflow.get());
        list_numbered(&self.tasks, number_at(tasks, moderation.task))
    }

    /// The task at which a moderation stands, with its groups.
    fn stage_at(&self, moderation: &Moderation) -> Stage<'_>
        requires { IsCounted self.now.workflows moderation.now }
        ensures task { result.task
            ≡ number_at (list_at self.now.workflows moderation.now.workflow) moderation.now.task }
        ensures groups { result.groups.now ≡ list_at self.now.tasks result.task }
    {
        let task = self.current_task(moderation);
        match self.groups(task) {
            Some(groups) => Stage { task, groups },
            None => unreachable!(),
        }
    }

    /// The number of the task at which a moderation stands.
    fn task_number(&self, moderation: &Moderation) -> u32
        requires { IsCounted self.now.workflows moderation.now }
        ensures task { result
            ≡ number_at (list_at self.now.workflows moderation.now.workflow) moderation.now.task }
        ensures there { IsGiven (length self.now.tasks + 1) result }
        ensures range { IsTaskId result }
    {
        match numbered(&self.workflows, moderation.workflow.get()) {
            Some(tasks) => number_in(tasks.as_slice(), moderation.task),
            None => unreachable!(),
        }
    }
}

/// The list with this number, counted from 1, or an empty one if there is none.
fn list_numbered(lists: &[Ids], number: u32) -> &[u32]
    ensures { result.now ≡ list_at lists.now number }
{
    if number == 0 {
        return &[];
    }
    match numbered(lists, number) {
        Some(list) => list.as_slice(),
        None => &[],
    }
}

/// The number at this place, counted from 1, or 0 if there is none.
fn number_at(numbers: &[u32], place: u8) -> u32
    ensures { result ≡ number_at numbers.now place }
{
    if place == 0 || place as usize > numbers.len() {
        return 0;
    }
    number_in(numbers, place)
}

/// The number at this place, counted from 1.
fn number_in(numbers: &[u32], place: u8) -> u32
    requires first { 1 ≤ place }
    requires last { place ≤ length numbers.now }
    ensures { result ≡ number_at numbers.now place }
{
    numbers[place as usize - 1]
}
