//! Plans of making an alias a regular page.
ghost use Rattle.std.specs.Prelude.{◌≡◌, Option, Some, None, IfOk, if◌then◌else◌};
ghost use Rattle.site_types.specs.Content.{ContentValue};
ghost use Rattle.site_types.specs.declared.command.Command.TheVariants as commands;
ghost use Rattle.site_model.specs.World as worlds;
ghost use Rattle.site_model.specs.Aliases.{detach_rules};
ghost use Rattle.site_part.specs.Plans.{Prepares};
ghost use Rattle.site_part.specs.Standing.{IsReady, IsSame};
ghost use Rattle.new_pages.specs.Plans.{PlansBy, IsAsked};
ghost use Rattle.tree_edits.specs.Leaving.{IsAliasHere, IsDetachedAt};
ghost use Rattle.tree_edits.specs.Detaching.{RevisionGiven, regular_body, detaching_plan};

use new_pages::{later, make_room, new_revision, one_item};
use page_copies::shown_content;
use revision_shelf::MAX_CONTENT_SUM;
use site_part::{Change, Fault, Plan, TreePart, is_live_page};
use site_types::{Body, Moment, NoMemory, PageId, Refusal, Reply, Revision, RevisionId, UserId};
use std::alloc::Global;

/// An alias that may become a regular page.
#[derive(Drop)]
pub(crate) struct Detached {
    /// What is kept of it then.
    pub(crate) body: Body,
    /// Its revision, which has what the alias shows.
    pub(crate) revision: Revision,
}

/// The plan of making an alias a regular page, which its caller may do.
///
/// It costs a few look-ups and a copy of the content that the alias shows.
pub(crate) fn plan_detaching(
    alloc: Global,
    part: &mut TreePart,
    page: PageId,
    caller: UserId,
    now: Moment,
) -> Result<Plan, Fault>
    requires { (world : worlds.TreePart) × IsAsked part.old world caller (commands.Detach page) }
    ensures same { IsSame part.old part.new }
    ensures plan { (world : worlds.TreePart) (desk : Option ContentValue)
        → IsAsked part.old world caller (commands.Detach page)
        → Prepares world desk now caller (commands.Detach page) part.new result }
{
    let made = match detached_page(alloc, part, page, caller, now) {
        Ok(made) => made,
        Err(fault) => return Err(fault),
    };
    let next_page = part.next_page;
    let Ok(()) = make_room(part, 0, 1) else {
        return Err(Fault::Memory);
    };
    match detaching_plan(alloc, page, made, next_page) {
        Ok(plan) => Ok(plan),
        Err(_) => Err(Fault::Memory),
    }
}

/// What becomes of an alias, or the first rule that refuses it.
fn detached_page(
    alloc: Global,
    part: &TreePart,
    page: PageId,
    caller: UserId,
    now: Moment,
) -> Result<Detached, Fault>
    requires { (world : worlds.TreePart) × IsAsked part.now world caller (commands.Detach page) }
    ensures { (world : worlds.TreePart) → IsAsked part.now world caller (commands.Detach page)
        → PlansBy (detach_rules world now caller page)
        (IsDetachedAt world (worlds.time_at world now) world.next_revision caller page) result }
{
    let Some(row) = part.rows.row(page) else {
        unreachable!();
    };
    let Some(_source) = row.body.source else {
        return Err(Fault::Refused(Refusal::NothingNew));
    };
    let Some(id) = next_revision(part) else {
        return Err(Fault::Refused(Refusal::IdsFull));
    };
    let Ok(made) = detach_page(alloc, part, page, id, caller, later(part.time, now)) else {
        return Err(Fault::Memory);
    };
    if part.shelf.weight() + made.revision.content.form_length() > MAX_CONTENT_SUM {
        return Err(Fault::Refused(Refusal::ContentFull));
    }
    Ok(made)
}

/// An alias as a regular page with a revision of this id, which has what the alias shows.
pub(crate) fn detach_page(
    alloc: Global,
    part: &TreePart,
    page: PageId,
    id: RevisionId,
    caller: UserId,
    time: Moment,
) -> Result<Detached, NoMemory>
    requires { (world : worlds.TreePart) × IsReady part.now world × IsAliasHere world.tree page }
    ensures { (world : worlds.TreePart) → IsReady part.now world → IsAliasHere world.tree page
        → IfOk result (IsDetachedAt world time id caller page) }
{
    let Some(row) = part.rows.row(page) else {
        unreachable!();
    };
    let Some(content) = shown_content(&part.rows, &part.shelf, &row.body) else {
        unreachable!();
    };
    let content = content.copy(alloc)?;
    let live = is_live_page(&part.rows, page);
    Ok(Detached {
        body: regular_body(&row.body, live, id, time),
        revision: new_revision(id, page, caller, time, content),
    })
}

/// The next revision's id, or `None` if it is past the last.
fn next_revision(part: &TreePart) -> Option<RevisionId>
    ensures { (world : worlds.TreePart) → IsReady part.now world → RevisionGiven world result }
{
    RevisionId::new(part.next_revision)
}

/// What is kept of an alias that becomes a regular page with this revision, live or not.
fn regular_body(body: &Body, live: bool, revision: RevisionId, moment: Moment) -> Body
    ensures { result ≡ regular_body body.now live revision moment }
{
    Body {
        source: None,
        live,
        shown: Some(revision),
        latest: Some(revision),
        first_published: published_at(live, moment),
        last_published: published_at(live, moment),
        ..*body
    }
}

/// The moment, if the page is live.
fn published_at(live: bool, moment: Moment) -> Option<Moment>
    ensures { result ≡ (if live then Some moment else None) }
{
    if live { Some(moment) } else { None }
}

/// The plan of an alias that becomes a regular page.
fn detaching_plan(
    alloc: Global,
    page: PageId,
    made: Detached,
    next_page: u32,
) -> Result<Plan, NoMemory>
    ensures { IfOk result (λ plan. plan ≡ detaching_plan page made next_page) }
{
    let Detached { body, revision } = made;
    let time = revision.made;
    let next_revision = revision.id.get() + 1;
    let mut change = Change::of_body(alloc, page, body, time, next_page, next_revision)?;
    change.revisions = one_item(alloc, revision)?;
    Ok(Plan::quiet(alloc, Reply::Done, change))
}
