//! Looking tasks and workflows up.
ghost use Rattle.std.specs.Prelude.{◌≡◌, ◌≤◌, length, slice_get};
ghost use Rattle.std.specs.Option.{option_copied};
ghost use Rattle.workflow.specs.Flows.{AreFlows, list_with};

use crate::Flows;
use site_types::{Ids, TaskId, WorkflowId};

impl Flows {
    /// The number of tasks, at most 65,535.
    pub fn task_count(&self) -> u32
        ensures value { result ≡ length self.now.tasks }
        ensures flows { AreFlows self.now.tasks self.now.workflows }
    {
        self.tasks.len() as u32
    }

    /// The number of workflows, at most 65,535.
    pub fn workflow_count(&self) -> u32
        ensures value { result ≡ length self.now.workflows }
        ensures flows { AreFlows self.now.tasks self.now.workflows }
    {
        self.workflows.len() as u32
    }

    /// The groups of a task, rising, or `None` exactly if there is no such task. One look-up.
    pub fn groups(&self, task: TaskId) -> Option<&Ids>
        ensures { option_copied result ≡ list_with self.now.tasks task }
    {
        numbered(&self.tasks, task.get())
    }

    /// The tasks of a workflow in order, or `None` exactly if there is no such workflow. One
    /// look-up.
    pub fn tasks(&self, workflow: WorkflowId) -> Option<&Ids>
        ensures { option_copied result ≡ list_with self.now.workflows workflow }
    {
        numbered(&self.workflows, workflow.get())
    }
}

/// The list with this number, counted from 1, or `None` exactly if there is none.
pub(crate) fn numbered(lists: &[Ids], number: u32) -> Option<&Ids>
    requires { 1 ≤ number }
    ensures { option_copied result ≡ list_with lists.now number }
{
    at_place(lists, number as usize - 1)
}

/// The list at a place, or `None` exactly at or past their number.
fn at_place(lists: &[Ids], place: usize) -> Option<&Ids>
    ensures { option_copied result ≡ slice_get lists.now place }
{
    lists.get(place)
}
