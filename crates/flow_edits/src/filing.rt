//! Plans of filing the text of a desk.
ghost use Rattle.std.specs.Prelude.{◌≡◌, Option, Some, true, [], ◌∷◌, IfOk};
ghost use Rattle.std.specs.Option.{option_copied};
ghost use Rattle.page_tree.specs.Tree.{Forest, has_page};
ghost use Rattle.page_tree.specs.Rows.{rows_of};
ghost use Rattle.site_types.specs.declared.body.Body.{Body as PageBody};
ghost use Rattle.site_types.specs.declared.command.Command.TheVariants as commands;
ghost use Rattle.site_model.specs.World as worlds;
ghost use Rattle.site_model.specs.Desks as desks;
ghost use Rattle.site_model.specs.Views as views;
ghost use Rattle.site_part.specs.Plans.{Prepares};
ghost use Rattle.site_part.specs.Standing.{IsReady, IsSame};
ghost use Rattle.moderating.specs.Asked.{IsAsked};
ghost use Rattle.moderating.specs.Plans.{Plans, Tells};
ghost use Rattle.flow_edits.specs.Plans.{revision_of, filed_body, filing_plan};

use moderating::{after_filing, body_of, ending, later, latest_of, one_page, same_moment};
use revision_shelf::MAX_CONTENT_SUM;
use site_part::{Change, Fault, Plan, TreePart};
use site_types::{
    Body, Content, Items, Moment, NoMemory, PageId, Refusal, Reply, Revision, RevisionId, UserId,
};
use std::alloc::Global;
use workflow::Flows;

/// What is filed: a text, when it is to be published, if not at once, and when the page is to stop
/// being live, if ever.
#[derive(Drop)]
struct Draft<'a> {
    text: &'a Content,
    go_live: Option<Moment>,
    expire: Option<Moment>,
}

/// The plan of filing the text of the caller's desk on a page, with these moments: it becomes the
/// page's latest revision, and the one that a moderation in progress is about, and the desk ends.
///
/// It costs a few look-ups, and a comparison and a copy of the text.
pub(crate) fn plan_filing(
    alloc: Global,
    part: &mut TreePart,
    page: PageId,
    go_live: Option<Moment>,
    expire: Option<Moment>,
    caller: UserId,
    now: Moment,
    desk: Option<&Content>,
) -> Result<Plan, Fault>
    requires { (world : worlds.TreePart)
        × IsAsked part.old world (option_copied desk) caller (commands.File page go_live expire) }
    ensures same { IsSame part.old part.new }
    ensures plan { (world : worlds.TreePart)
        → IsAsked part.old world (option_copied desk.entry) caller
        (commands.File page go_live expire)
        → Prepares world (option_copied desk.entry) now caller (commands.File page go_live expire)
        part.new result }
{
    let Some(text) = desk else {
        return Err(Fault::Refused(Refusal::NoDesk));
    };
    let draft = Draft {
        text,
        go_live,
        expire,
    };
    let filed = match filed_revision(alloc, part, page, &draft, caller, now) {
        Ok(filed) => filed,
        Err(fault) => return Err(fault),
    };
    let Ok(()) = part.shelf.reserve(1) else {
        return Err(Fault::Memory);
    };
    filing_plan(alloc, part, filed)
}

/// The revision that a draft of a page becomes, or the rule that refuses it.
fn filed_revision(
    alloc: Global,
    part: &TreePart,
    page: PageId,
    draft: &Draft,
    caller: UserId,
    now: Moment,
) -> Result<Revision, Fault>
    requires { (world : worlds.TreePart) × IsReady part.now world }
    ensures { (world : worlds.TreePart) → IsReady part.now world
        → Tells (desks.file_rules world now caller page draft.now.go_live draft.now.expire
        (Some draft.now.text.now)) (λ revision. revision ≡ desks.filed_revision world now caller page
        draft.now.text.now draft.now.go_live draft.now.expire) result }
{
    if is_filed(draft, latest_of(part, page)) {
        return Err(Fault::Refused(Refusal::NothingNew));
    }
    let id = match RevisionId::new(part.next_revision) {
        Some(id) => id,
        None => return Err(Fault::Refused(Refusal::IdsFull)),
    };
    if part.shelf.weight() + draft.text.form_length() > MAX_CONTENT_SUM {
        return Err(Fault::Refused(Refusal::ContentFull));
    }
    match copied(alloc, id, page, draft, caller, later(part.time, now)) {
        Ok(revision) => Ok(revision),
        Err(_) => Err(Fault::Memory),
    }
}

/// The revision of a page by this user with a copy of a draft.
fn copied(
    alloc: Global,
    id: RevisionId,
    page: PageId,
    draft: &Draft,
    by: UserId,
    made: Moment,
) -> Result<Revision, NoMemory>
    ensures { IfOk result (λ revision. revision ≡ revision_of id page by made draft.now.text.now
        draft.now.go_live draft.now.expire) }
{
    let content = draft.text.copy(alloc)?;
    Ok(Revision {
        id,
        page,
        by,
        made,
        content,
        go_live: draft.go_live,
        expire: draft.expire,
    })
}

/// Whether the latest revision of a page has a draft's text and moments.
fn is_filed(draft: &Draft, latest: Option<&Revision>) -> bool
    ensures { result ≡ desks.is_filed draft.now.text.now draft.now.go_live draft.now.expire
        (option_copied latest.entry) }
{
    match latest {
        Some(revision) => {
            *draft.text == revision.content
                && (same_moment(draft.go_live, revision.go_live)
                    && same_moment(draft.expire, revision.expire))
        }
        None => false,
    }
}

/// The plan of a text that becomes this revision of a page that is there.
fn filing_plan(alloc: Global, part: &TreePart, filed: Revision) -> Result<Plan, Fault>
    requires { (tree : Forest PageBody) × (part.now.rows.pages ≡ rows_of tree)
        × (has_page filed.page tree ≡ true) }
    ensures { (tree : Forest PageBody) (body : PageBody) → part.now.rows.pages ≡ rows_of tree
        → views.body_of tree filed.page ≡ Some body
        → Plans (filing_plan filed body part.now.next_page) result }
{
    let Some(body) = body_of(&part.rows, filed.page) else {
        unreachable!();
    };
    match filing_of(alloc, &part.flows, filed, &body, part.next_page) {
        Ok(plan) => Ok(plan),
        Err(_) => Err(Fault::Memory),
    }
}

/// The plan of a text that becomes this revision of a page of which this is kept.
fn filing_of(
    alloc: Global,
    flows: &Flows,
    filed: Revision,
    body: &Body,
    next_page: u32,
) -> Result<Plan, NoMemory>
    ensures { IfOk result (λ plan. plan ≡ filing_plan filed body.now next_page) }
{
    let id = filed.id;
    let page = filed.page;
    let shut = one_page(alloc, page)?;
    let after = filed_body(flows, body, id);
    let mut change = Change::of_body(alloc, page, after, filed.made, next_page, id.get() + 1)?;
    change.revisions = one_revision(alloc, filed)?;
    Ok(ending(alloc, Reply::Id(id.get()), shut, change))
}

/// What is kept of a page with this revision as its latest, which a moderation in progress is then
/// about.
fn filed_body(flows: &Flows, body: &Body, revision: RevisionId) -> Body
    ensures { result ≡ filed_body body.now revision }
{
    Body {
        latest: Some(revision),
        moderation: after_filing(flows, body, revision),
        ..*body
    }
}

/// A list of one revision.
fn one_revision(alloc: Global, revision: Revision) -> Result<Items<Revision>, NoMemory>
    ensures { IfOk result (λ revisions. revisions ≡ revision ∷ []) }
{
    let mut revisions = Vec::with_capacity(alloc, 1)?;
    revisions.push(revision)?;
    Ok(Items::from_vec(revisions))
}
