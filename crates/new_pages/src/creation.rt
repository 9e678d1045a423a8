//! Plans of creations.
ghost use Rattle.std.specs.Prelude.{◌≡◌, Option, IfOk};
ghost use Rattle.site_types.specs.Content.{ContentValue};
ghost use Rattle.site_types.specs.declared.command.Command.TheVariants as commands;
ghost use Rattle.site_model.specs.World as worlds;
ghost use Rattle.site_model.specs.Rules.{first_of};
ghost use Rattle.site_part.specs.Plans.{Prepares};
ghost use Rattle.site_part.specs.Standing.{IsReady, IsSame};
ghost use Rattle.new_pages.specs.Plans.{PlansBy, IsAsked};
ghost use Rattle.new_pages.specs.Making.{IdsGiven, page_rules, IsNewPage, creation_plan};

use crate::newcomer::{Newcomer, new_body, new_revision, newcomer_plan, one_item};
use crate::place::{NewPlace, plan_place};
use crate::room::make_room;
use crate::telling::later;
use revision_shelf::MAX_CONTENT_SUM;
use site_part::{Fault, Plan, TreePart};
use site_types::{Content, Moment, NoMemory, PageId, Refusal, RevisionId, Slug, UserId};
use std::alloc::Global;

/// A page that may be made.
#[derive(Drop)]
pub(crate) struct NewPage {
    /// Its path and its URL.
    pub(crate) place: NewPlace,
    /// Its id, which is the next one.
    pub(crate) page: PageId,
    /// The id of its first revision, which is the next one.
    pub(crate) revision: RevisionId,
}

/// The plan of a creation whose parent is there, and which its caller may give.
///
/// It costs what its place costs, and a copy of the content.
pub fn plan_creation(
    alloc: Global,
    part: &mut TreePart,
    parent: PageId,
    slug: &Slug,
    content: &Content,
    caller: UserId,
    now: Moment,
) -> Result<Plan, Fault>
    requires { (world : worlds.TreePart)
        × IsAsked part.old world caller (commands.Create parent slug.now content.now) }
    ensures same { IsSame part.old part.new }
    ensures plan { (world : worlds.TreePart) (desk : Option ContentValue)
        → IsAsked part.old world caller (commands.Create parent slug.now content.now)
        → Prepares world desk now caller (commands.Create parent slug.now content.now) part.new result }
{
    let _len = part.rows.len();
    let made = match plan_page(alloc, part, parent, slug, content, caller, now) {
        Ok(made) => made,
        Err(fault) => return Err(fault),
    };
    let Ok(()) = make_room(part, 1, 1) else {
        return Err(Fault::Memory);
    };
    match new_plan(alloc, made, slug, content, caller, later(part.time, now)) {
        Ok(plan) => Ok(plan),
        Err(_) => Err(Fault::Memory),
    }
}

/// A page that may be made, or the first rule that refuses it.
fn plan_page(
    alloc: Global,
    part: &TreePart,
    parent: PageId,
    slug: &Slug,
    content: &Content,
    caller: UserId,
    now: Moment,
) -> Result<NewPage, Fault>
    requires { (world : worlds.TreePart)
        × IsAsked part.now world caller (commands.Create parent slug.now content.now) }
    ensures { (world : worlds.TreePart)
        → IsAsked part.now world caller (commands.Create parent slug.now content.now)
        → PlansBy (first_of (page_rules world now caller parent slug.now content.now))
        (IsNewPage world parent slug.now) result }
{
    let place = match plan_place(alloc, &part.rows, parent, slug) {
        Ok(place) => place,
        Err(fault) => return Err(fault),
    };
    let Some((page, revision)) = next_ids(part) else {
        return Err(Fault::Refused(Refusal::IdsFull));
    };
    if part.shelf.weight() + content.form_length() > MAX_CONTENT_SUM {
        return Err(Fault::Refused(Refusal::ContentFull));
    }
    Ok(NewPage {
        place,
        page,
        revision,
    })
}

/// The next page's id and the next revision's id, or `None` where one of them is past its last.
fn next_ids(part: &TreePart) -> Option<(PageId, RevisionId)>
    ensures { (world : worlds.TreePart) → IsReady part.now world → IdsGiven world result }
{
    match (
        PageId::new(part.next_page),
        RevisionId::new(part.next_revision),
    ) {
        (Some(page), Some(revision)) => Some((page, revision)),
        _ => None,
    }
}

/// The plan of a page that is made.
fn new_plan(
    alloc: Global,
    made: NewPage,
    slug: &Slug,
    content: &Content,
    caller: UserId,
    time: Moment,
) -> Result<Plan, NoMemory>
    ensures { IfOk result (λ plan. plan ≡ creation_plan made slug.now content.now caller time) }
{
    let content = content.copy(alloc)?;
    let NewPage {
        place,
        page,
        revision,
    } = made;
    let first = new_revision(revision, page, caller, time, content);
    let revisions = one_item(alloc, first)?;
    let newcomer = Newcomer {
        id: page,
        place,
        body: new_body(caller, revision),
    };
    newcomer_plan(alloc, newcomer, slug, revisions, time, revision.get() + 1)
}
