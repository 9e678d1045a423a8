//! Putting an item in at a place, and taking items out between two.
ghost use Rattle.std.specs.Prelude.{◌≡◌, ◌+◌, ◌<◌, ◌≤◌, vec_len, vec_capacity};
ghost use Rattle.std.specs.List.{insert, remove_range};

/// Puts an item in at a place of a list that has room for it.
///
/// It moves each item behind.
pub(crate) fn put<T: Drop>(items: &mut Vec<T>, place: usize, item: T)
    requires within { place ≤ vec_len items.old }
    requires room { vec_len items.old < vec_capacity items.old }
    ensures items { items.new.items ≡ insert items.old.items place item }
    ensures len { vec_len items.new ≡ vec_len items.old + 1 }
    ensures capacity { vec_capacity items.old ≤ vec_capacity items.new }
{
    match items.insert(place, item) {
        Ok(()) => {}
        Err(_) => unreachable!(),
    }
}

/// Takes the items between two places out.
///
/// It moves each item behind.
pub(crate) fn cut<T: Drop>(items: &mut Vec<T>, start: usize, end: usize)
    requires ordered { start ≤ end }
    requires within { end ≤ vec_len items.old }
    ensures items { items.new.items ≡ remove_range items.old.items start end }
    ensures len { vec_len items.new ≤ vec_len items.old }
    ensures capacity { vec_capacity items.old ≤ vec_capacity items.new }
{
    drop(items.drain(start..end));
}
