//! Plans of purges.
ghost use Rattle.std.specs.Prelude.{◌≡◌, ℕ, length, Option};
ghost use Rattle.std.specs.Option.{option_copied};
ghost use Rattle.site_types.specs.Content.{ContentValue};
ghost use Rattle.site_types.specs.declared.command.Command.TheVariants as commands;
ghost use Rattle.site_model.specs.World as worlds;
ghost use Rattle.site_part.specs.Plans.{Prepares};
ghost use Rattle.moderating.specs.Asked.{IsAsked};
ghost use Rattle.flow_edits.specs.Plans.{purge_of, is_taken, taken, counted};

use flat_model::Purge;
use moderating::{ending, kept_of, later, no_pages, same_revision};
use revision_shelf::Shelf;
use site_part::{Change, Fault, Plan, TreeChange, TreePart};
use site_types::{Body, Moment, PageId, Refusal, Reply, Revision};
use std::alloc::Global;

/// The plan of a purge of a page, which its caller may give.
///
/// It costs one look-up for each revision.
pub(crate) fn plan_purge(
    alloc: Global,
    part: &TreePart,
    page: PageId,
    now: Moment,
) -> Result<Plan, Fault>
    requires { (world : worlds.TreePart) × (desk : Option ContentValue) × (caller : ℕ)
        × IsAsked part.now world desk caller (commands.Purge page) }
    ensures { (world : worlds.TreePart) (desk : Option ContentValue) (caller : ℕ)
        → IsAsked part.now world desk caller (commands.Purge page)
        → Prepares world desk now caller (commands.Purge page) part.now result }
{
    let body = kept_of(part, page);
    let purge = purge_of(page, &body);
    let count = taken_by(&part.shelf, &purge);
    if count == 0 {
        return Err(Fault::Refused(Refusal::NothingNew));
    }
    let mut change = Change::of_tree(
        alloc,
        TreeChange::Nothing,
        later(part.time, now),
        part.next_page,
        part.next_revision,
    );
    change.purge = Some(purge);
    Ok(ending(alloc, Reply::Removed(count), no_pages(alloc), change))
}

/// The purge of a page of which this is kept.
fn purge_of(page: PageId, body: &Body) -> Purge
    ensures { result ≡ purge_of page body.now }
{
    Purge {
        page,
        shown: body.shown,
        latest: body.latest,
        scheduled: body.scheduled,
        moderated: body.moderation.map(|moderation| moderation.revision),
    }
}

/// How many revisions a purge takes. One look-up for each revision.
fn taken_by(shelf: &Shelf, purge: &Purge) -> u32
    ensures { result ≡ length (taken purge.now shelf.now.revisions) }
{
    let mut count = 0;
    for place in 0..shelf.len() {
        count += counted(purge, shelf.at(place));
    }
    count
}

/// 1 if there is a revision that a purge takes, and else 0.
fn counted(purge: &Purge, revision: Option<&Revision>) -> u32
    ensures { result ≡ counted purge.now (option_copied revision.entry) }
{
    match revision {
        Some(revision) => u32::from(is_taken(purge, revision)),
        None => 0,
    }
}

/// Whether a purge takes a revision.
fn is_taken(purge: &Purge, revision: &Revision) -> bool
    ensures { result ≡ is_taken purge.now revision.now }
{
    revision.page == purge.page
        && !(same_revision(purge.shown, Some(revision.id))
            || same_revision(purge.latest, Some(revision.id))
            || same_revision(purge.scheduled, Some(revision.id))
            || same_revision(purge.moderated, Some(revision.id)))
}
