//! Moving rows in the path order, and giving pages other paths and URLs.
ghost use Rattle.std.specs.Prelude.{◌≡◌, ℕ, ◌+◌, ◌-◌, ◌≤◌, List, ◌++◌, length, vec_len, vec_capacity};
ghost use Rattle.page_store.specs.Pages.{ArePages};
ghost use Rattle.page_store.specs.Relabelling.{relabelled_rows, AreListed, listed_in_either, first_moved, KeepParents};
ghost use Rattle.page_store.specs.Settling.{items_moved};

use crate::rewrite::put_listed;
use crate::settle::{id_at, settle};
use crate::{Relabels, Rows, Urls};
use site_types::PageId;
use std::sync::ledger::Ledger;
use step_path::Steps;

impl Rows {
    /// Moves `n` rows from a place to another of the rows that remain, and gives the listed pages
    /// their new paths and URLs. The first of the moved rows goes below the page above its new path.
    ///
    /// Each page in either list takes one step of `steps`, and one step if it is in both. Each listed
    /// URL takes one look-up and each listed path two; no row is copied. The move takes four bytes
    /// for each page between the two places, and a new parent one search of as many texts as the
    /// number of pages has binary digits.
    ///
    /// The key of the moved page goes and a new one comes in. An `IndexMap` does not promise that a
    /// key that goes leaves its room, so the call asks for the room of two rows.
    pub fn relabel<L: Ledger>(
        &mut self,
        from: usize,
        n: usize,
        to: usize,
        rows: &Relabels,
        urls: Urls,
        steps: &mut Steps<L>,
    )
        requires from_within { from + n ≤ length self.old.pages }
        requires to_within { to + n ≤ length self.old.pages }
        requires paths_listed { AreListed self.old.pages rows.now }
        requires urls_listed { AreListed self.old.pages urls }
        requires are_pages { ArePages (relabelled_rows from n to rows.now urls self.old.pages) }
        requires parents { KeepParents (first_moved from n self.old.pages) self.old.pages
            (relabelled_rows from n to rows.now urls self.old.pages) }
        requires spare { 2 ≤ self.old.spare }
        ensures pages { self.new.pages ≡ relabelled_rows from n to rows.now urls self.old.pages }
        ensures spare { self.old.spare ≤ self.new.spare + 2 }
        ensures steps { steps.new ≤ steps.old + listed_in_either rows.now urls }
    {
        let top = id_at(&self.order[from..from + n], 0);
        move_items(&mut self.order, from, n, to);
        put_listed(&mut self.stored, rows, urls, steps);
        settle(&mut self.stored, &mut self.kids, &self.order, top);
    }
}

/// Moves `n` ids from a place to another of those that remain, four bytes for each id between.
fn move_items(order: &mut Vec<PageId>, from: usize, n: usize, to: usize)
    requires from_within { from + n ≤ vec_len order.old }
    requires to_within { to + n ≤ vec_len order.old }
    ensures items { order.new.items ≡ items_moved from n to order.old.items }
    ensures len { vec_len order.new ≡ vec_len order.old }
    ensures capacity { vec_capacity order.new ≡ vec_capacity order.old }
{
    if to <= from {
        swap_blocks(order.as_mut_slice(), to, from, from + n);
    } else {
        swap_blocks(order.as_mut_slice(), from, from + n, to + n);
    }
}

/// Swaps the block of ids from `start` to `middle` with the one from `middle` to `end`.
fn swap_blocks(order: &mut [PageId], start: usize, middle: usize, end: usize)
    requires start_le_middle { start ≤ middle }
    requires middle_le_end { middle ≤ end }
    requires within { end ≤ length order.old }
    ensures swapped { (front one other back : List ℕ) → order.old ≡ front ++ (one ++ (other ++ back))
        → length front ≡ start → length one ≡ middle - start → length other ≡ end - middle
        → order.new ≡ front ++ (other ++ (one ++ back)) }
    ensures len { length order.new ≡ length order.old }
{
    order[start..end].rotate_left(middle - start);
}
