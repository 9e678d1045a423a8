//! Tasks and workflows, as they are kept.
use site_types::Ids;
use std::marker::Model;

/// The tasks of a site, each with its groups, and the workflows, each with its tasks in order.
///
/// Both are numbered from 1, and none ever goes. A task or a workflow takes the memory of its own
/// list, and an entry beside it.
#[derive(Debug, Drop)]
pub struct Flows {
    pub(crate) tasks: Vec<Ids>,
    pub(crate) workflows: Vec<Ids>,
}

impl Model for Flows {
    ghost use Rattle.std.specs.Prelude.{◌-◌, min, vec_len, vec_capacity};
    ghost use Rattle.workflow.specs.Flows.{FlowLists, AreFlows};

    ghost Value = { FlowLists };

    ghost view = { λ flows. record {
      tasks = flows.tasks.items;
      workflows = flows.workflows.items;
      spare = min (vec_capacity flows.tasks - vec_len flows.tasks)
          (vec_capacity flows.workflows - vec_len flows.workflows);
    } };

    ghost invariant = { λ flows. AreFlows flows.tasks.items flows.workflows.items };
}
