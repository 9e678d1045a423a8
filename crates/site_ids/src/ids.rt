//! The numbers that name pages, revisions, users, groups, tasks and workflows.
ghost use Rattle.std.specs.Prelude.{◌≡◌, ℕ};
ghost use Rattle.std.specs.Option.{SomeIff};
ghost use Rattle.site_ids.specs.Ids.{IsPageId, IsRevisionId, IsUserId, IsGroupId, IsTaskId, IsWorkflowId};

use std::marker::Model;

/// The greatest number of a page.
pub const LAST_PAGE_ID: u32 = 1_000_000;
/// The greatest number of a revision.
pub const LAST_REVISION_ID: u32 = 4_000_000_000;
/// The greatest number of a user.
pub const LAST_USER_ID: u32 = 65_535;
/// The greatest number of a group.
pub const LAST_GROUP_ID: u32 = 65_535;
/// The greatest number of a task.
pub const LAST_TASK_ID: u32 = 65_535;
/// The greatest number of a workflow.
pub const LAST_WORKFLOW_ID: u32 = 65_535;

/// The number of a page, from 1 to 1,000,000. It is never used again once its page is gone.
#[derive(Clone, Copy, Debug, PartialEq, Eq, PartialOrd, Ord, Hash)]
pub struct PageId {
    number: u32,
}

impl Model for PageId {
    ghost Value = { ℕ };

    ghost view = { λ id. id.number };

    ghost invariant = { λ id. IsPageId id.number };

    ghost inverse = { λ n. record { number = n } };
}

impl PageId {
    /// The page with this number, or `None` exactly outside 1 to 1,000,000.
    pub fn new(n: u32) -> Option<Self>
        ensures { SomeIff result (IsPageId n) n }
    {
        if let 1..=LAST_PAGE_ID = n {
            Some(PageId { number: n })
        } else {
            None
        }
    }

    /// The root of the tree, page 1.
    pub fn root() -> Self
        ensures { result ≡ 1 }
    {
        PageId { number: 1 }
    }

    /// The number, from 1 to 1,000,000.
    pub fn get(self) -> u32
        ensures value { result ≡ self }
        ensures range { IsPageId result }
    {
        self.number
    }
}

/// The number of a revision, from 1 to 4,000,000,000.
#[derive(Clone, Copy, Debug, PartialEq, Eq, PartialOrd, Ord, Hash)]
pub struct RevisionId {
    number: u32,
}

impl Model for RevisionId {
    ghost Value = { ℕ };

    ghost view = { λ id. id.number };

    ghost invariant = { λ id. IsRevisionId id.number };

    ghost inverse = { λ n. record { number = n } };
}

impl RevisionId {
    /// The revision with this number, or `None` exactly outside 1 to 4,000,000,000.
    pub fn new(n: u32) -> Option<Self>
        ensures { SomeIff result (IsRevisionId n) n }
    {
        if let 1..=LAST_REVISION_ID = n {
            Some(RevisionId { number: n })
        } else {
            None
        }
    }

    /// The number, from 1 to 4,000,000,000.
    pub fn get(self) -> u32
        ensures value { result ≡ self }
        ensures range { IsRevisionId result }
    {
        self.number
    }
}

/// The number of a user, from 1 to 65,535, or 0 for the scheduler.
#[derive(Clone, Copy, Debug, PartialEq, Eq, PartialOrd, Ord, Hash)]
pub struct UserId {
    number: u32,
}

impl Model for UserId {
    ghost Value = { ℕ };

    ghost view = { λ id. id.number };

    ghost invariant = { λ id. IsUserId id.number };

    ghost inverse = { λ n. record { number = n } };
}

impl UserId {
    /// The user with this number, or `None` exactly outside 0 to 65,535.
    pub fn new(n: u32) -> Option<Self>
        ensures { SomeIff result (IsUserId n) n }
    {
        if let 0..=LAST_USER_ID = n {
            Some(UserId { number: n })
        } else {
            None
        }
    }

    /// The scheduler, user 0, who counts as a superuser.
    pub fn scheduler() -> Self
        ensures { result ≡ 0 }
    {
        UserId { number: 0 }
    }

    /// The number, from 0 to 65,535.
    pub fn get(self) -> u32
        ensures value { result ≡ self }
        ensures range { IsUserId result }
    {
        self.number
    }
}

/// The number of a group of users, from 1 to 65,535.
#[derive(Clone, Copy, Debug, PartialEq, Eq, PartialOrd, Ord, Hash)]
pub struct GroupId {
    number: u32,
}

impl Model for GroupId {
    ghost Value = { ℕ };

    ghost view = { λ id. id.number };

    ghost invariant = { λ id. IsGroupId id.number };

    ghost inverse = { λ n. record { number = n } };
}

impl GroupId {
    /// The group with this number, or `None` exactly outside 1 to 65,535.
    pub fn new(n: u32) -> Option<Self>
        ensures { SomeIff result (IsGroupId n) n }
    {
        if let 1..=LAST_GROUP_ID = n {
            Some(GroupId { number: n })
        } else {
            None
        }
    }

    /// The number, from 1 to 65,535.
    pub fn get(self) -> u32
        ensures value { result ≡ self }
        ensures range { IsGroupId result }
    {
        self.number
    }
}

/// The number of a task of moderation, from 1 to 65,535.
#[derive(Clone, Copy, Debug, PartialEq, Eq, PartialOrd, Ord, Hash)]
pub struct TaskId {
    number: u32,
}

impl Model for TaskId {
    ghost Value = { ℕ };

    ghost view = { λ id. id.number };

    ghost invariant = { λ id. IsTaskId id.number };

    ghost inverse = { λ n. record { number = n } };
}

impl TaskId {
    /// The task with this number, or `None` exactly outside 1 to 65,535.
    pub fn new(n: u32) -> Option<Self>
        ensures { SomeIff result (IsTaskId n) n }
    {
        if let 1..=LAST_TASK_ID = n {
            Some(TaskId { number: n })
        } else {
            None
        }
    }

    /// The number, from 1 to 65,535.
    pub fn get(self) -> u32
        ensures value { result ≡ self }
        ensures range { IsTaskId result }
    {
        self.number
    }
}

/// The number of a workflow, from 1 to 65,535.
#[derive(Clone, Copy, Debug, PartialEq, Eq, PartialOrd, Ord, Hash)]
pub struct WorkflowId {
    number: u32,
}

impl Model for WorkflowId {
    ghost Value = { ℕ };

    ghost view = { λ id. id.number };

    ghost invariant = { λ id. IsWorkflowId id.number };

    ghost inverse = { λ n. record { number = n } };
}

impl WorkflowId {
    /// The workflow with this number, or `None` exactly outside 1 to 65,535.
    pub fn new(n: u32) -> Option<Self>
        ensures { SomeIff result (IsWorkflowId n) n }
    {
        if let 1..=LAST_WORKFLOW_ID = n {
            Some(WorkflowId { number: n })
        } else {
            None
        }
    }

    /// The number, from 1 to 65,535.
    pub fn get(self) -> u32
        ensures value { result ≡ self }
        ensures range { IsWorkflowId result }
    {
        self.number
    }
}
