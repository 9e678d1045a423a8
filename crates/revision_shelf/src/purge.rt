//! Taking the revisions of a page out but for a few.
ghost use Rattle.std.specs.Prelude.{◌≡◌, ◌+◌, ◌≤◌, Some, is_some, nat_eq, length};
ghost use Rattle.std.specs.List.{list_any};
ghost use Rattle.revision_shelf.specs.Shelf.{latest_of, purged, Rises};
ghost use Rattle.revision_shelf.specs.Kept.{without, before_in, IsOwn};
ghost use Rattle.revision_shelf.specs.Purge.{named, step_after, step_count, step_left};

use crate::Shelf;
use crate::chain::unlink;
use crate::remove::cut;
use site_types::{LAST_REVISION_ID, PageId, RevisionId};

impl Shelf {
    /// Takes the page's revisions out but for those with an id to keep, of which 0 is none, and
    /// answers how many went. It takes no memory.
    ///
    /// Each revision of the page takes one look-up. Each that goes takes two more, compares as many
    /// ids as the number of revisions has binary digits, and moves four bytes for each id after it.
    pub fn purge(&mut self, page: PageId, keep: &[u32; 4]) -> u32
        ensures revisions { self.new.revisions ≡ purged page keep.now self.old.revisions }
        ensures count { length self.old.revisions ≡ length self.new.revisions + result }
        ensures spare { self.old.spare ≤ self.new.spare }
    {
        let _ = self.len();
        let mut gone = 0;
        let mut after = 0;
        'back: while self.step(page, keep, &mut after, &mut gone) {}
        gone
    }

    /// Looks at the page's last revision before one of its own, or at its last of all: it is kept,
    /// and is the next to look before, or it goes and is counted. Answers whether there was one.
    fn step(&mut self, page: PageId, keep: &[u32; 4], after: &mut u32, gone: &mut u32) -> bool
        requires own { IsOwn page (named after.old) self.old.revisions }
        requires within { after.old ≤ LAST_REVISION_ID }
        requires few { gone.old ≤ LAST_REVISION_ID }
        ensures more { result
            ≡ is_some (latest_of page (before_in (named after.old) self.old.revisions)) }
        ensures after { after.new ≡ step_after keep.now
            (latest_of page (before_in (named after.old) self.old.revisions)) after.old }
        ensures gone { gone.new ≡ gone.old + step_count keep.now
            (latest_of page (before_in (named after.old) self.old.revisions)) }
        ensures revisions { self.new.revisions ≡ step_left keep.now
            (latest_of page (before_in (named after.old) self.old.revisions)) self.old.revisions }
        ensures rises { Rises 0 self.old.revisions }
        ensures spare { self.old.spare ≤ self.new.spare }
    {
        let number = *after;
        match self.before(page, id_of(number)) {
            Some(id) => {
                if is_among(keep, id) {
                    *after = id.get();
                    true
                } else {
                    self.take(page, id_of(number), id);
                    *gone += 1;
                    true
                }
            }
            None => false,
        }
    }

    /// The page's last revision before one of its own, or its last of all. One look-up.
    fn before(&self, page: PageId, after: Option<RevisionId>) -> Option<RevisionId>
        requires { IsOwn page after self.now.revisions }
        ensures value { result ≡ latest_of page (before_in after self.now.revisions) }
        ensures rises { Rises 0 self.now.revisions }
    {
        match after {
            Some(after) => match self.stored.get(&after) {
                Some(kept) => kept.previous,
                None => None,
            },
            None => self.newest.get(&page).copied(),
        }
    }

    /// Takes a revision of a page out: its last before one of its own, or its last of all.
    fn take(&mut self, page: PageId, after: Option<RevisionId>, id: RevisionId)
        requires own { IsOwn page after self.old.revisions }
        requires before { latest_of page (before_in after self.old.revisions) ≡ Some id }
        ensures revisions { self.new.revisions ≡ without id self.old.revisions }
        ensures spare { self.old.spare ≤ self.new.spare }
    {
        unlink(
            &mut self.stored,
            &mut self.newest,
            &mut self.weight,
            page,
            after,
            id,
        );
        cut(&mut self.order, id);
    }
}

/// Whether the id is one of those to keep.
fn is_among(keep: &[u32; 4], id: RevisionId) -> bool
    ensures { result ≡ list_any (λ number. nat_eq number id) keep.now }
{
    keep.contains(&id.get())
}

/// The id with this number, where 0 is none.
fn id_of(number: u32) -> Option<RevisionId>
    requires { number ≤ LAST_REVISION_ID }
    ensures { result ≡ named number }
{
    if number == 0 {
        return None;
    }
    match RevisionId::new(number) {
        Some(id) => Some(id),
        None => unreachable!(),
    }
}
