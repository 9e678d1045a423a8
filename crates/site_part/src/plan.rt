//! What a command will do.
ghost use Rattle.std.specs.Prelude.{◌≡◌};
ghost use Rattle.site_part.specs.Plans.{quiet_plan};

use flat_model::Change;
use site_types::{Content, Ids, Items, PageId, Reply, UserId};
use std::alloc::Global;

/// What a command that no rule refuses will do: nothing is left to find out, and no memory to take.
#[derive(Drop)]
pub struct Plan {
    /// What it answers.
    pub reply: Reply,
    /// The desk that it opens: its page, its user and its text.
    pub opened: Option<(PageId, UserId, Content)>,
    /// The pages whose desks end, rising.
    pub shut: Ids,
    /// The text that is saved: the page and the user of its desk, and the text.
    pub saved: Option<(PageId, UserId, Content)>,
    /// What it changes.
    pub change: Change,
    /// The pages that get other links, each with the ids that it links to then, to be put in one
    /// after another. They are found after all else.
    pub links: Items<(PageId, Ids)>,
}

impl Plan {
    /// A plan that opens and ends no desk, and gives no page other links. It takes no memory.
    pub fn quiet(alloc: Global, reply: Reply, change: Change) -> Plan
        ensures { result ≡ quiet_plan reply change }
    {
        Plan {
            reply,
            opened: None,
            shut: Ids::from_vec(Vec::new(alloc)),
            saved: None,
            change,
            links: Items::from_vec(Vec::new(alloc)),
        }
    }
}
