//! Searches in the open desks, and putting one in or taking one out.
ghost use Rattle.std.specs.Prelude.{◌≡◌, ◌+◌, ◌<◌, ◌≤◌, ◌==◌, false, [], ◌∷◌, slice_get, vec_len, vec_capacity};
ghost use Rattle.site_model.specs.Desks.{desk_key, desk_user};
ghost use Rattle.site_model.specs.Sound.{KeysRise};
ghost use Rattle.desk_pairs.specs.Pairs.{has_desk, with_pair, without};
ghost use Rattle.desk_pairs.specs.Places.{place_of, passes};
ghost use Rattle.desk_pairs.specs.Kept.{pairs_seen, user_told};

use crate::pairs::Pair;
use site_types::{PageId, UserId};

/// Puts a desk in on a page that has none.
pub(crate) fn put(pairs: &mut Vec<Pair>, page: PageId, user: UserId)
    requires rise { KeysRise desk_key (pairs_seen pairs.old.items) }
    requires room { vec_len pairs.old < vec_capacity pairs.old }
    requires free { has_desk (pairs_seen pairs.old.items) page ≡ false }
    ensures items { pairs_seen pairs.new.items ≡ with_pair page user (pairs_seen pairs.old.items) }
    ensures rise { KeysRise desk_key (pairs_seen pairs.new.items) }
    ensures len { vec_len pairs.new ≡ vec_len pairs.old + 1 }
    ensures capacity { vec_capacity pairs.old ≤ vec_capacity pairs.new }
{
    let place = place_at(pairs, page);
    match pairs.insert(place, Pair { page, user }) {
        Ok(()) => {}
        Err(_) => unreachable!(),
    }
}

/// Takes the desk on a page out, if there is one.
pub(crate) fn cut(pairs: &mut Vec<Pair>, page: PageId)
    requires { KeysRise desk_key (pairs_seen pairs.old.items) }
    ensures items { pairs_seen pairs.new.items ≡ without page (pairs_seen pairs.old.items) }
    ensures rise { KeysRise desk_key (pairs_seen pairs.new.items) }
    ensures len { vec_len pairs.new ≤ vec_len pairs.old }
    ensures capacity { vec_capacity pairs.old ≤ vec_capacity pairs.new }
{
    let place = place_at(pairs, page);
    if is_at(pairs, place, page) {
        pairs.remove(place);
    }
}

/// The user whose desk on the page is open.
pub(crate) fn user_at(pairs: &[Pair], page: PageId) -> Option<UserId>
    requires { KeysRise desk_key (pairs_seen pairs.now) }
    ensures { result ≡ desk_user (pairs_seen pairs.now) page }
{
    told_at(pairs, place_at(pairs, page), page)
}

/// The user of the desk at a place, if it is on the page.
fn told_at(pairs: &[Pair], place: usize, page: PageId) -> Option<UserId>
    ensures { result ≡ user_told page (slice_get (pairs_seen pairs.now) place) }
{
    match pairs.get(place) {
        Some(pair) => {
            if pair.page == page {
                Some(pair.user)
            } else {
                None
            }
        }
        None => None,
    }
}

/// The number of desks on pages before this one.
fn place_at(pairs: &[Pair], page: PageId) -> usize
    requires { KeysRise desk_key (pairs_seen pairs.now) }
    ensures { result ≡ place_of desk_key (page ∷ []) (pairs_seen pairs.now) }
{
    pairs.partition_point(|pair| pair.page < page)
}

/// Whether the desk at a place is on the page.
fn is_at(pairs: &[Pair], place: usize, page: PageId) -> bool
    ensures { result ≡ passes (λ pair. pair.page == page) (slice_get (pairs_seen pairs.now) place) }
{
    match pairs.get(place) {
        Some(pair) => pair.page == page,
        None => false,
    }
}
