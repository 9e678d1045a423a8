//! Laws of the world. Each is a function that does nothing: its contract is the law.
ghost use Rattle.site_model.specs.Laws.{NewWorldIsReached, StepByKeepsReached, OwnTextFits, StepKeepsReached, StepKeepsSound, StepIsSettled, DesksStay, UntouchedStays, TouchedAlone, SuperusersMayAll, HeldByWalks, NearestIsGiven, ModerationNames, SubmissionHasPlace, DeletionAtOnce, CreationKeepsTheRest};
ghost use Rattle.site_model.specs.LosingLaws.{EndedAre, EndsOwn, EndsNone, DeletionEndsAll, LockEndsOthers, SubmitEnds, ApproveEnds, RejectEnds, CancelEnds, PublishEnds, StaysByMembers, MemberEnds, StaysByGrants, GrantEnds, MovedAbove, MovedStay, MoveEnds};

/// The world of a new site is one that is reached.
pub fn new_world_is_reached()
    ensures { NewWorldIsReached }
{}

/// A step of the tree part leads to what is reached, whoever calls.
pub fn step_by_keeps_reached()
    ensures { StepByKeepsReached }
{}

/// The text of the caller's own desk is as a step asks for it.
pub fn own_text_fits()
    ensures { OwnTextFits }
{}

/// A step leads to a world that is reached, whoever calls.
pub fn step_keeps_reached()
    ensures { StepKeepsReached }
{}

/// A step keeps a world sound, whoever calls and whatever desks are open.
pub fn step_keeps_sound()
    ensures { StepKeepsSound }
{}

/// A step is its rules and its effect, with the desks that end.
pub fn step_is_settled()
    ensures { StepIsSettled }
{}

/// After every command each open desk is of a user who may work there.
pub fn desks_stay()
    ensures { DesksStay }
{}

/// A part that an entry does not touch stays.
pub fn untouched_stays()
    ensures { UntouchedStays }
{}

/// What an entry does to the parts that it touches depends on these alone.
pub fn touched_alone()
    ensures { TouchedAlone }
{}

/// A superuser is denied nothing.
pub fn superusers_may_all()
    ensures { SuperusersMayAll }
{}

/// A permission is held by grants on the walk.
pub fn held_by_walks()
    ensures { HeldByWalks }
{}

/// In a sound world the nearest workflow of a page is there.
pub fn nearest_is_given()
    ensures { NearestIsGiven }
{}

/// In a sound world the moderation of a page names what is there.
pub fn moderation_names()
    ensures { ModerationNames }
{}

/// If the first six rules do not refuse a submission, a moderation begins or goes on.
pub fn submission_has_place()
    ensures { SubmissionHasPlace }
{}

/// What a creation does not name stays as it was.
pub fn creation_keeps_the_rest()
    ensures { CreationKeepsTheRest }
{}

/// Every command ends the caller's own desk, where it shuts it, and suspects that do not stay.
pub fn ended_are()
    ensures { EndedAre }
{}

/// A command without suspects ends no desk but the one that it shuts.
pub fn ends_own()
    ensures { EndsOwn }
{}

/// A command without suspects that shuts no desk ends none.
pub fn ends_none()
    ensures { EndsNone }
{}

/// A deletion ends each desk on the page and below it.
pub fn deletion_ends_all()
    ensures { DeletionEndsAll }
{}

/// A lock ends the desk of another on its page.
pub fn lock_ends_others()
    ensures { LockEndsOthers }
{}

/// A submission ends the desk on its page, if it does not stay by what is left of the moderation.
pub fn submit_ends()
    ensures { SubmitEnds }
{}

/// So does an approval.
pub fn approve_ends()
    ensures { ApproveEnds }
{}

/// So does a rejection.
pub fn reject_ends()
    ensures { RejectEnds }
{}

/// So does a moderation that is given up.
pub fn cancel_ends()
    ensures { CancelEnds }
{}

/// To publish a page ends the desk on it, if it does not stay without the moderation.
pub fn publish_ends()
    ensures { PublishEnds }
{}

/// After a membership changed, a desk stays by the memberships alone.
pub fn stays_by_members()
    ensures { StaysByMembers }
{}

/// A membership that ends ends desks of its user alone.
pub fn member_ends()
    ensures { MemberEnds }
{}

/// After a grant changed, a desk stays by the grants alone.
pub fn stays_by_grants()
    ensures { StaysByGrants }
{}

/// A grant that is withdrawn ends desks of its group's members, on its page and below it alone.
pub fn grant_ends()
    ensures { GrantEnds }
{}

/// The walk to a moved page leads over its new parent, and then on as before.
pub fn moved_above()
    ensures { MovedAbove }
{}

/// After a move, a desk on a moved page stays by what its user may do below the new parent.
pub fn moved_stay()
    ensures { MovedStay }
{}

/// A move ends those desks on moved pages whose users may not edit there below the new parent.
pub fn move_ends()
    ensures { MoveEnds }
{}

/// What a deletion makes of a sound world is told at once by the world before.
pub fn deletion_at_once()
    ensures { DeletionAtOnce }
{}
