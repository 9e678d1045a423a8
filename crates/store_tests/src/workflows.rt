//! A first task and a first workflow, where memory suffices.
use site_types::{Ids, ModerationStatus, RevisionId, UserId};
use std::test::Fail;
use workflow::Flows;

#[test]
fn the_one_task_of_a_workflow_is_approved(rt: HostRuntime) -> Result<(), Fail> {
    let revision = RevisionId::new(1).ok_or("no revision")?;
    let user = UserId::new(1).ok_or("no user")?;
    let mut flows = Flows::new(rt.alloc());
    flows.reserve(2)?;
    let task = flows.define_task(Ids::from_vec(vec![in rt.alloc(); 1]?))?;
    let workflow = flows.define_workflow(Ids::from_vec(vec![in rt.alloc(); task.get()]?))?;
    let started = flows.start(workflow, revision, user);
    let approved = flows.approve(&started).ok_or("not in progress")?;
    assert!(rt; approved.status == ModerationStatus::Approved);
    assert!(rt; flows.approve(&approved).is_none());
    Ok(())
}
