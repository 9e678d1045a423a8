//! Plans of aliases.
ghost use Rattle.std.specs.Prelude.{◌≡◌, true, [], Option};
ghost use Rattle.page_tree.specs.Tree.{has_page};
ghost use Rattle.site_types.specs.Content.{ContentValue};
ghost use Rattle.site_types.specs.declared.body.Body.{Body as PageBody};
ghost use Rattle.site_types.specs.declared.command.Command.TheVariants as commands;
ghost use Rattle.site_model.specs.World as worlds;
ghost use Rattle.site_model.specs.Aliases.{alias_body};
ghost use Rattle.site_part.specs.Plans.{Prepares};
ghost use Rattle.site_part.specs.Standing.{IsReady, IsSame};
ghost use Rattle.new_pages.specs.Plans.{PlansBy, IsAsked};
ghost use Rattle.new_pages.specs.Aliasing.{newcomer_refusal, PageGiven, IsNewAlias};

use crate::newcomer::{Newcomer, newcomer_plan};
use crate::place::{NewPlace, plan_place};
use crate::room::make_room;
use crate::telling::later;
use page_copies::plan_alias;
use site_part::{Fault, Plan, TreePart};
use site_types::{Body, Items, Moment, PageId, Refusal, Slug, UserId};
use std::alloc::Global;

/// An alias that may be made.
#[derive(Drop)]
pub(crate) struct NewAlias {
    /// Its path and its URL.
    pub(crate) place: NewPlace,
    /// Its id, which is the next one.
    pub(crate) page: PageId,
}

/// The plan of an alias of a page that is there, below a parent that is there, which its caller may
/// make. An alias of an alias shows what that one shows.
///
/// It costs what its place costs, and one look-up.
pub fn plan_aliasing(
    alloc: Global,
    part: &mut TreePart,
    source: PageId,
    parent: PageId,
    slug: &Slug,
    caller: UserId,
    now: Moment,
) -> Result<Plan, Fault>
    requires { (world : worlds.TreePart)
        × IsAsked part.old world caller (commands.Alias source parent slug.now) }
    ensures same { IsSame part.old part.new }
    ensures plan { (world : worlds.TreePart) (desk : Option ContentValue)
        → IsAsked part.old world caller (commands.Alias source parent slug.now)
        → Prepares world desk now caller (commands.Alias source parent slug.now) part.new result }
{
    let _len = part.rows.len();
    let made = match place_alias(alloc, part, parent, slug) {
        Ok(made) => made,
        Err(fault) => return Err(fault),
    };
    let shown = plan_alias(&part.rows, source);
    let time = later(part.time, now);
    let next_revision = part.next_revision;
    let Ok(()) = make_room(part, 1, 0) else {
        return Err(Fault::Memory);
    };
    let newcomer = Newcomer {
        id: made.page,
        place: made.place,
        body: alias_body(caller, shown),
    };
    let none = Items::from_vec(Vec::new(alloc));
    match newcomer_plan(alloc, newcomer, slug, none, time, next_revision) {
        Ok(plan) => Ok(plan),
        Err(_) => Err(Fault::Memory),
    }
}

/// The place and the id of an alias below a parent that is there, or the first rule that refuses it.
fn place_alias(
    alloc: Global,
    part: &TreePart,
    parent: PageId,
    slug: &Slug,
) -> Result<NewAlias, Fault>
    requires { (world : worlds.TreePart) × IsReady part.now world
        × (has_page parent world.tree ≡ true) }
    ensures { (world : worlds.TreePart) (body : PageBody) → IsReady part.now world
        → has_page parent world.tree ≡ true
        → PlansBy (newcomer_refusal world parent slug.now body) (IsNewAlias world parent slug.now)
        result }
{
    let place = match plan_place(alloc, &part.rows, parent, slug) {
        Ok(place) => place,
        Err(fault) => return Err(fault),
    };
    match next_page(part) {
        Some(page) => Ok(NewAlias { place, page }),
        None => Err(Fault::Refused(Refusal::IdsFull)),
    }
}

/// The next page's id, or `None` if it is past the last.
fn next_page(part: &TreePart) -> Option<PageId>
    ensures { (world : worlds.TreePart) → IsReady part.now world → PageGiven world result }
{
    PageId::new(part.next_page)
}

/// What is kept of an alias of this user's that shows this page.
fn alias_body(owner: UserId, source: PageId) -> Body
    ensures { result ≡ alias_body owner source }
{
    Body {
        owner,
        source: Some(source),
        live: false,
        expired: false,
        shown: None,
        latest: None,
        scheduled: None,
        first_published: None,
        last_published: None,
        locked_by: None,
        workflow: None,
        moderation: None,
    }
}
