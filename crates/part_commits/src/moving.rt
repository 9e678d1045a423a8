//! Moves of pages, as they were planned.
ghost use Rattle.std.specs.Prelude.{◌≡◌, ◌<◌, ◌≤◌};
ghost use Rattle.flat_model.specs.Fits.{MoveFits};
ghost use Rattle.flat_model.specs.Made.{with_move};

use page_store::{MovePlan, Rows, Urls};
use std::marker::Brand;
use std::sync::ledger::{Blank, Ledger};
use step_path::Steps;

/// Moves a page with all below it, and gives the listed pages their new paths and URLs. It cannot
/// fail.
///
/// It costs what `range_of` and `relabel` cost: a few look-ups for each page whose path or URL
/// changes.
pub(crate) fn put_move(rows: &mut Rows, plan: MovePlan, urls: Urls)
    requires fits { MoveFits plan urls rows.old.pages }
    requires spare { 2 ≤ rows.old.spare }
    ensures { rows.new.pages ≡ with_move plan urls rows.old.pages }
{
    move_counted::<Brand>(Blank::new(1), rows, plan, urls);
}

/// Moves a page as it was planned, and counts the steps over a new ledger.
fn move_counted<L: Ledger>(blank: Blank, rows: &mut Rows, plan: MovePlan, urls: Urls)
    requires name { blank.name ≡ L.name }
    requires parts { blank.parts ≡ L.parts }
    requires some { 0 < blank.parts }
    requires fits { MoveFits plan urls rows.old.pages }
    requires spare { 2 ≤ rows.old.spare }
    ensures { rows.new.pages ≡ with_move plan urls rows.old.pages }
{
    let mut steps = Steps::<L>::new(blank);
    let Some((from, count)) = rows.range_of(plan.page) else {
        unreachable!();
    };
    rows.relabel(from, count, plan.place, &plan.rows, urls, &mut steps);
}
