//! The aliases that a deletion leaves without their source: each becomes a regular page.
ghost use Rattle.std.specs.Prelude.{◌≡◌, ◌+◌, ◌-◌, ◌≤◌, ◌++◌, ◌∷◌, [], true, not, IsSome, IfOk, OnOk, length, filter, nat_lt, if◌then◌else◌};
ghost use Rattle.std.specs.List.{AllByRecursion};
ghost use Rattle.page_tree.specs.Tree.{Forest, has_page, node_of, ids_of};
ghost use Rattle.page_tree.specs.Rows.{rows_of, row_with};
ghost use Rattle.site_ids.specs.declared.ids.TheConstants.{LAST_REVISION_ID};
ghost use Rattle.site_types.specs.declared.body.Body.{Body as PageBody};
ghost use Rattle.site_types.specs.declared.command.Command.TheVariants as commands;
ghost use Rattle.site_model.specs.World as worlds;
ghost use Rattle.site_model.specs.Delete.{aliases_left, delete_rules};
ghost use Rattle.site_model.specs.Limits.{MAX_CONTENTS, contents_length};
ghost use Rattle.link_index.specs.Pairs.{seconds_of, PairsRise};
ghost use Rattle.site_part.specs.Standing.{IsReady};
ghost use Rattle.new_pages.specs.Plans.{PlansBy, IsAsked};
ghost use Rattle.tree_edits.specs.Leaving.{IsAliasHere, AreDetached, staying};

use crate::detaching::{Detached, detach_page};
use new_pages::{goes, later, weighs_more};
use page_store::Rows;
use revision_shelf::MAX_CONTENT_SUM;
use site_part::{Fault, TreePart};
use site_types::{
    Body, Ids, Items, LAST_REVISION_ID, Moment, NoMemory, PageId, Refusal, Revision, RevisionId,
    UserId,
};
use std::alloc::Global;

/// The aliases that a deletion leaves without their source, as regular pages.
#[derive(Drop)]
pub(crate) struct LeftAliases {
    /// What is kept of each then.
    pub(crate) bodies: Items<(PageId, Body)>,
    /// Their revisions, which have what the aliases show.
    pub(crate) revisions: Items<Revision>,
}

/// What becomes of the aliases that the deletion of a page leaves, or the first rule that refuses
/// it. `gone` has the pages that go, the page first.
///
/// It costs two searches for each page that goes; for each alias that is left, a copy of the content
/// that it shows.
pub(crate) fn plan_leaving(
    alloc: Global,
    part: &TreePart,
    page: PageId,
    gone: &Ids,
    caller: UserId,
    now: Moment,
) -> Result<LeftAliases, Fault>
    requires asked { (world : worlds.TreePart) × IsAsked part.now world caller (commands.Delete page) }
    requires gone { (tree : Forest PageBody) → part.now.rows.pages ≡ rows_of tree
        → gone.now ≡ ids_of (node_of page tree) }
    ensures { (world : worlds.TreePart) → IsAsked part.now world caller (commands.Delete page)
        → PlansBy (delete_rules world now caller page)
        (AreDetached world (worlds.time_at world now) caller (aliases_left world page)) result }
{
    let Ok(aliases) = left_aliases(alloc, part, page, gone) else {
        return Err(Fault::Memory);
    };
    if part.next_revision as u64 + aliases.len() as u64 > LAST_REVISION_ID as u64 + 1 {
        return Err(Fault::Refused(Refusal::IdsFull));
    }
    let Ok(made) = all_detached(alloc, part, &aliases, caller, later(part.time, now)) else {
        return Err(Fault::Memory);
    };
    if overfills(part, page, made.revisions.as_slice()) {
        return Err(Fault::Refused(Refusal::ContentFull));
    }
    Ok(made)
}

/// The pages that stay and are aliases of pages that go with a page, rising by id.
///
/// It costs two searches for each page that goes, a look-up and a comparison of paths for each of
/// their aliases, and a sort of those that stay.
fn left_aliases(
    alloc: Global,
    part: &TreePart,
    page: PageId,
    gone: &Ids,
) -> Result<Vec<PageId>, NoMemory>
    requires { (world : worlds.TreePart) × IsReady part.now world × (has_page page world.tree ≡ true)
        × (gone.now ≡ ids_of (node_of page world.tree)) }
    ensures { (world : worlds.TreePart) → IsReady part.now world
        → gone.now ≡ ids_of (node_of page world.tree)
        → IfOk result (λ ids. ids.items ≡ aliases_left world page) }
{
    let _len = part.rows.len();
    let mut left = Vec::new(alloc);
    for number in gone.as_slice() {
        let Some(source) = PageId::new(*number) else {
            unreachable!();
        };
        put_staying(part, page, source, &mut left)?;
    }
    left.sort_unstable();
    Ok(left)
}

/// Puts the aliases of a page that stay as another goes after other pages.
fn put_staying(
    part: &TreePart,
    page: PageId,
    source: PageId,
    left: &mut Vec<PageId>,
) -> Result<(), NoMemory>
    requires { IsSome (row_with page part.now.rows.pages) }
    ensures found { (tree : Forest PageBody) → part.now.rows.pages ≡ rows_of tree → OnOk result
        (left.new.items ≡ left.old.items
        ++ staying (node_of page tree) (seconds_of source part.now.aliases.pairs)) }
    ensures pairs_rise { PairsRise part.now.aliases.pairs }
{
    let aliases = part.aliases.follow(source)?;
    for number in aliases.as_slice() {
        let Some(alias) = PageId::new(*number) else {
            unreachable!();
        };
        let goes = goes(&part.rows, page, alias);
        put_if(left, alias, !goes)?;
    }
    Ok(())
}

/// Puts a page after others, if it is to be there.
fn put_if(pages: &mut Vec<PageId>, page: PageId, wanted: bool) -> Result<(), NoMemory>
    ensures { OnOk result (pages.new.items
        ≡ pages.old.items ++ (if wanted then page ∷ [] else [])) }
{
    if wanted {
        pages.push(page)?;
    }
    Ok(())
}

/// These aliases as regular pages.
fn all_detached(
    alloc: Global,
    part: &TreePart,
    aliases: &[PageId],
    caller: UserId,
    time: Moment,
) -> Result<LeftAliases, NoMemory>
    requires { (world : worlds.TreePart) × IsReady part.now world
        × AllByRecursion (IsAliasHere world.tree) aliases.now
        × (world.next_revision + length aliases.now ≤ LAST_REVISION_ID + 1) }
    ensures { (world : worlds.TreePart) → IsReady part.now world
        → AllByRecursion (IsAliasHere world.tree) aliases.now
        → IfOk result (AreDetached world time caller aliases.now) }
{
    let mut bodies = Vec::with_capacity(alloc, aliases.len())?;
    let mut revisions = Vec::with_capacity(alloc, aliases.len())?;
    for (done, alias) in aliases.iter().enumerate() {
        let Some(id) = RevisionId::new(part.next_revision + done as u32) else {
            unreachable!();
        };
        let Detached { body, revision } = detach_page(alloc, part, *alias, id, caller, time)?;
        bodies.push((*alias, body))?;
        revisions.push(revision)?;
    }
    Ok(LeftAliases {
        bodies: Items::from_vec(bodies),
        revisions: Items::from_vec(revisions),
    })
}

/// Whether the contents of these revisions have no room beside those that stay as a page goes.
///
/// It costs a look at each of these revisions. Only where they have no room beside all that there
/// are, it costs one at each revision of the site: the shelf tells no page's revisions one by one.
fn overfills(part: &TreePart, page: PageId, revisions: &[Revision]) -> bool
    requires { (world : worlds.TreePart) × IsReady part.now world × (has_page page world.tree ≡ true) }
    ensures { (world : worlds.TreePart) → IsReady part.now world
        → result ≡ nat_lt MAX_CONTENTS (contents_length
        (filter (λ revision. not (has_page revision.page (node_of page world.tree))) world.revisions)
        + contents_length revisions.now) }
{
    if !weighs_more(MAX_CONTENT_SUM - part.shelf.weight(), revisions) {
        return false;
    }
    weighs_more(room_left(part, page), revisions)
}

/// How many bytes the contents of revisions may take beside those that stay as a page goes.
///
/// It costs a look at each revision of the site.
fn room_left(part: &TreePart, page: PageId) -> u64
    requires { (world : worlds.TreePart) × IsReady part.now world × (has_page page world.tree ≡ true) }
    ensures { (world : worlds.TreePart) → IsReady part.now world
        → result + contents_length
        (filter (λ revision. not (has_page revision.page (node_of page world.tree))) world.revisions)
        ≡ MAX_CONTENTS }
{
    let mut room = MAX_CONTENT_SUM;
    for place in 0..part.shelf.len() {
        let Some(revision) = part.shelf.at(place) else {
            unreachable!();
        };
        let goes = goes(&part.rows, page, revision.page);
        room = less(room, revision.content.form_length(), !goes);
    }
    room
}

/// What is left of some bytes where so many are taken, if they are.
fn less(room: u64, form: u64, taken: bool) -> u64
    requires { taken ≡ true → form ≤ room }
    ensures { result ≡ (if taken then room - form else room) }
{
    if taken { room - form } else { room }
}
