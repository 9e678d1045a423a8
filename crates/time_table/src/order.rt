//! The pairs of moments and pages in their order: finding a place, putting in and taking out.
ghost use Rattle.std.specs.Prelude.{◌≡◌, ◌+◌, ◌<◌, ◌≤◌, Some, nat_le, length, vec_len, vec_capacity};
ghost use Rattle.time_table.specs.Table.{is_earlier, moment_in, without, put_in, due_in, IsTable};
ghost use Rattle.time_table.specs.Kept.{leading};

use site_types::{Moment, PageId};

/// The number of pairs that come before this one.
fn place_of(order: &[(Moment, PageId)], at: Moment, page: PageId) -> usize
    requires { IsTable order.now }
    ensures { result ≡ leading (λ entry. is_earlier entry (at, page)) order.now }
{
    order.partition_point(|entry| is_before(entry, at, page))
}

/// Whether a pair comes before this one.
fn is_before(entry: &(Moment, PageId), at: Moment, page: PageId) -> bool
    ensures { result ≡ is_earlier entry.now (at, page) }
{
    if entry.0 == at {
        entry.1 < page
    } else {
        entry.0 < at
    }
}

/// Puts a pair in at its place, where there is room for it.
pub(crate) fn put_at(order: &mut Vec<(Moment, PageId)>, at: Moment, page: PageId)
    requires table { IsTable order.old.items }
    requires room { vec_len order.old < vec_capacity order.old }
    ensures items { order.new.items ≡ put_in (at, page) order.old.items }
    ensures len { vec_len order.new ≡ vec_len order.old + 1 }
    ensures capacity { vec_capacity order.old ≤ vec_capacity order.new }
{
    let place = place_of(order, at, page);
    match order.insert(place, (at, page)) {
        Ok(()) => {}
        Err(_) => unreachable!(),
    }
}

/// Takes the pair of a page out, which has this moment.
pub(crate) fn take_out(order: &mut Vec<(Moment, PageId)>, at: Moment, page: PageId)
    requires table { IsTable order.old.items }
    requires there { moment_in order.old.items page ≡ Some at }
    ensures items { order.new.items ≡ without page order.old.items }
    ensures len { vec_len order.new ≤ vec_len order.old }
    ensures capacity { vec_capacity order.new ≡ vec_capacity order.old }
{
    let place = place_of(order, at, page);
    order.remove(place);
}

/// The number of pairs whose moment is at most this one.
fn due_count(order: &[(Moment, PageId)], t: Moment) -> usize
    requires { IsTable order.now }
    ensures count { result ≡ leading (λ entry. nat_le entry.0 t) order.now }
    ensures within { result ≤ length order.now }
{
    order.partition_point(|entry| entry.0 <= t)
}

/// The pairs whose moment is at most this one.
pub(crate) fn due_pairs(order: &[(Moment, PageId)], t: Moment) -> &[(Moment, PageId)]
    requires { IsTable order.now }
    ensures { result.now ≡ due_in t order.now }
{
    &order[..due_count(order, t)]
}
