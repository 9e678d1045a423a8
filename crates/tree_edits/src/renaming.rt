//! Plans of other slugs.
ghost use Rattle.std.specs.Prelude.{◌≡◌, ℕ, Option};
ghost use Rattle.site_types.specs.Content.{ContentValue};
ghost use Rattle.site_types.specs.declared.command.Command.TheVariants as commands;
ghost use Rattle.site_model.specs.World as worlds;
ghost use Rattle.site_part.specs.Plans.{Prepares};
ghost use Rattle.site_part.specs.Standing.{IsSame};
ghost use Rattle.new_pages.specs.Plans.{PlansBy, IsAsked};
ghost use Rattle.site_model.specs.Slugs.{slug_rules};
ghost use Rattle.tree_edits.specs.Naming.{IsBelow, AreNewUrls};

use new_pages::{later, told_page, url_fault};
use page_store::{Relabels, Rows, Urls};
use site_part::{Change, Fault, Plan, TreeChange, TreePart};
use site_types::{Moment, PageId, Refusal, Slug};
use slug_urls::plan_urls;
use std::alloc::Global;

/// The plan of another slug for a page that is there and below the root, which its caller may give.
///
/// It costs a few look-ups and one URL, of its exact size, for each page whose URL changes.
pub(crate) fn plan_renaming(
    alloc: Global,
    part: &mut TreePart,
    page: PageId,
    slug: &Slug,
    now: Moment,
) -> Result<Plan, Fault>
    requires { (world : worlds.TreePart) × (caller : ℕ)
        × IsAsked part.old world caller (commands.SetSlug page slug.now) }
    ensures same { IsSame part.old part.new }
    ensures plan { (world : worlds.TreePart) (desk : Option ContentValue) (caller : ℕ)
        → IsAsked part.old world caller (commands.SetSlug page slug.now)
        → Prepares world desk now caller (commands.SetSlug page slug.now) part.new result }
{
    let _len = part.rows.len();
    let urls = match urls_with(alloc, &part.rows, page, slug) {
        Ok(urls) => urls,
        Err(fault) => return Err(fault),
    };
    let none = Relabels::from_vec(Vec::new(alloc));
    let Ok(reply) = told_page(alloc, &part.rows, page, &none, &urls) else {
        return Err(Fault::Memory);
    };
    let Ok(()) = part.rows.reserve(3) else {
        return Err(Fault::Memory);
    };
    let slug = slug.copy();
    let change = Change::of_tree(
        alloc,
        TreeChange::Rename { page, slug, urls },
        later(part.time, now),
        part.next_page,
        part.next_revision,
    );
    Ok(Plan::quiet(alloc, reply, change))
}

/// The URLs that change where a page gets the slug, or why it is refused: it has the slug already,
/// another page beside it has it, or a URL would be too long; the first of these.
fn urls_with(alloc: Global, rows: &Rows, page: PageId, slug: &Slug) -> Result<Urls, Fault>
    requires { (part : worlds.TreePart) × IsBelow rows.now.pages part page slug.now }
    ensures { (part : worlds.TreePart) → IsBelow rows.now.pages part page slug.now
        → PlansBy (slug_rules part.tree page slug.now) (AreNewUrls part.tree page slug.now) result }
{
    let _len = rows.len();
    let Some(row) = rows.row(page) else {
        unreachable!();
    };
    let Some(parent) = rows.parent(page) else {
        unreachable!();
    };
    if row.slug == *slug {
        return Err(Fault::Refused(Refusal::NothingNew));
    }
    match plan_urls(alloc, rows, page, parent, slug) {
        Ok(urls) => Ok(urls),
        Err(fault) => Err(url_fault(fault)),
    }
}
