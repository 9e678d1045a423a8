//! An empty store, making room, and defining tasks and workflows.
ghost use Rattle.std.specs.Prelude.{◌≡◌, ◌+◌, ◌<◌, ◌≤◌, ◌↔◌, [], ◌∷◌, ◌++◌, length};
ghost use Rattle.std.specs.Prelude.{IsErr, IfOk, OnOk, OnErr, vec_len, vec_capacity};
ghost use Rattle.site_ids.specs.declared.ids.TheConstants.{LAST_TASK_ID, LAST_WORKFLOW_ID};
ghost use Rattle.workflow.specs.Flows.{IsTask, IsWorkflow};

use crate::{Flows, Full};
use site_types::{Ids, LAST_TASK_ID, LAST_WORKFLOW_ID, NoMemory, TaskId, WorkflowId};
use std::alloc::Global;

impl Flows {
    /// No tasks, no workflows and no room. It takes no memory.
    pub fn new(alloc: Global) -> Flows
        ensures tasks { result.tasks ≡ [] }
        ensures workflows { result.workflows ≡ [] }
        ensures spare { result.spare ≡ 0 }
    {
        Flows {
            tasks: Vec::new(alloc),
            workflows: Vec::new(alloc),
        }
    }

    /// Makes room for `more` tasks and workflows, so that as many can be defined without memory.
    /// The room never shrinks, if memory runs out either.
    ///
    /// It costs nothing if the room is there, and otherwise a copy of the entries, not of the lists.
    pub fn reserve(&mut self, more: usize) -> Result<(), NoMemory>
        ensures tasks { self.new.tasks ≡ self.old.tasks }
        ensures workflows { self.new.workflows ≡ self.old.workflows }
        ensures ok { OnOk result (more ≤ self.new.spare) }
        ensures spare { self.old.spare ≤ self.new.spare }
    {
        self.tasks.reserve(more)?;
        self.workflows.reserve(more)?;
        Ok(())
    }

    /// Defines the next task, whose groups are 1 to 16 distinct ids, rising; or `Full` exactly if
    /// there are 65,535 tasks. Then the list is dropped, and nothing changes.
    ///
    /// The list is taken as it is.
    pub fn define_task(&mut self, groups: Ids) -> Result<TaskId, Full>
        requires groups { IsTask groups }
        requires spare { 1 ≤ self.old.spare }
        ensures full { IsErr result ↔ (length self.old.tasks ≡ LAST_TASK_ID) }
        ensures id { IfOk result (λ id. id ≡ length self.old.tasks + 1) }
        ensures added { OnOk result (self.new.tasks ≡ self.old.tasks ++ groups ∷ []) }
        ensures same { OnErr result (self.new.tasks ≡ self.old.tasks) }
        ensures workflows { self.new.workflows ≡ self.old.workflows }
        ensures spare { self.old.spare ≤ self.new.spare + 1 }
    {
        if self.tasks.len() == LAST_TASK_ID as usize {
            return Err(Full);
        }
        push(&mut self.tasks, groups);
        Ok(task_with_number(self.tasks.len()))
    }

    /// Defines the next workflow, with 1 to 16 tasks in order, all of which exist; or `Full`
    /// exactly if there are 65,535 workflows. Then the list is dropped, and nothing changes.
    ///
    /// The list is taken as it is.
    pub fn define_workflow(&mut self, tasks: Ids) -> Result<WorkflowId, Full>
        requires tasks { IsWorkflow (length self.old.tasks) tasks }
        requires spare { 1 ≤ self.old.spare }
        ensures full { IsErr result ↔ (length self.old.workflows ≡ LAST_WORKFLOW_ID) }
        ensures id { IfOk result (λ id. id ≡ length self.old.workflows + 1) }
        ensures added { OnOk result (self.new.workflows ≡ self.old.workflows ++ tasks ∷ []) }
        ensures same { OnErr result (self.new.workflows ≡ self.old.workflows) }
        ensures tasks { self.new.tasks ≡ self.old.tasks }
        ensures spare { self.old.spare ≤ self.new.spare + 1 }
    {
        if self.workflows.len() == LAST_WORKFLOW_ID as usize {
            return Err(Full);
        }
        push(&mut self.workflows, tasks);
        Ok(workflow_with_number(self.workflows.len()))
    }
}

/// The task with this number.
fn task_with_number(number: usize) -> TaskId
    requires first { 1 ≤ number }
    requires last { number ≤ LAST_TASK_ID }
    ensures { result ≡ number }
{
    match TaskId::new(number as u32) {
        Some(id) => id,
        None => unreachable!(),
    }
}

/// The workflow with this number.
fn workflow_with_number(number: usize) -> WorkflowId
    requires first { 1 ≤ number }
    requires last { number ≤ LAST_WORKFLOW_ID }
    ensures { result ≡ number }
{
    match WorkflowId::new(number as u32) {
        Some(id) => id,
        None => unreachable!(),
    }
}

/// Puts a list at the end of lists that have room for it.
fn push(lists: &mut Vec<Ids>, list: Ids)
    requires { vec_len lists.old < vec_capacity lists.old }
    ensures items { lists.new.items ≡ lists.old.items ++ list ∷ [] }
    ensures len { vec_len lists.new ≡ vec_len lists.old + 1 }
    ensures capacity { vec_capacity lists.old ≤ vec_capacity lists.new }
{
    match lists.push(list) {
        Ok(()) => {}
        Err(_) => unreachable!(),
    }
}
