//! Pairs of numbers in their order: finding a place, putting in, taking out, and those of one first
//! number.
ghost use Rattle.std.specs.Prelude.{◌≡◌, ◌+◌, ◌<◌, ◌≤◌, nat_le, nat_lt, filter, slice_get, length, vec_len, vec_capacity};
ghost use Rattle.link_index.specs.Pairs.{is_earlier, is_pair, put_in, without_pair, pairs_of, PairsRise};
ghost use Rattle.link_index.specs.Kept.{leading, passes, first_second};

/// Puts a pair in at its place, where there is room for it; nothing changes if it is there.
pub(crate) fn put(pairs: &mut Vec<(u32, u32)>, first: u32, second: u32)
    requires rise { PairsRise pairs.old.items }
    requires room { vec_len pairs.old < vec_capacity pairs.old }
    ensures items { pairs.new.items ≡ put_in (first, second) pairs.old.items }
    ensures len { vec_len pairs.new ≤ vec_len pairs.old + 1 }
    ensures capacity { vec_capacity pairs.old ≤ vec_capacity pairs.new }
{
    let place = place_of(pairs, first, second);
    if is_at(pairs, place, first, second) {
        return;
    }
    match pairs.insert(place, (first, second)) {
        Ok(()) => {}
        Err(_) => unreachable!(),
    }
}

/// Takes a pair out, if it is there.
pub(crate) fn take(pairs: &mut Vec<(u32, u32)>, first: u32, second: u32)
    requires rise { PairsRise pairs.old.items }
    ensures items { pairs.new.items ≡ without_pair first second pairs.old.items }
    ensures len { vec_len pairs.new ≤ vec_len pairs.old }
    ensures capacity { vec_capacity pairs.new ≡ vec_capacity pairs.old }
{
    let place = place_of(pairs, first, second);
    if is_at(pairs, place, first, second) {
        pairs.remove(place);
    }
}

/// The second number of the first pair with this first number, or `None` exactly if no pair has it.
pub(crate) fn second_of(pairs: &[(u32, u32)], first: u32) -> Option<u32>
    requires { PairsRise pairs.now }
    ensures { result ≡ first_second (pairs_of first pairs.now) }
{
    match with_first(pairs, first) {
        [pair, ..] => Some(pair.1),
        [] => None,
    }
}

/// The pairs with this first number. Two searches.
pub(crate) fn with_first(pairs: &[(u32, u32)], first: u32) -> &[(u32, u32)]
    requires { PairsRise pairs.now }
    ensures { result.now ≡ pairs_of first pairs.now }
{
    from(up_to(pairs, first), first)
}

/// The pairs whose first number is at most this one.
fn up_to(pairs: &[(u32, u32)], first: u32) -> &[(u32, u32)]
    requires { PairsRise pairs.now }
    ensures { result.now ≡ filter (λ pair. nat_le pair.0 first) pairs.now }
{
    &pairs[..count_up_to(pairs, first)]
}

/// The pairs whose first number is at least this one.
fn from(pairs: &[(u32, u32)], first: u32) -> &[(u32, u32)]
    requires { PairsRise pairs.now }
    ensures { result.now ≡ filter (λ pair. nat_le first pair.0) pairs.now }
{
    &pairs[count_below(pairs, first)..]
}

/// The number of pairs whose first number is at most this one.
fn count_up_to(pairs: &[(u32, u32)], first: u32) -> usize
    requires { PairsRise pairs.now }
    ensures count { result ≡ leading (λ pair. nat_le pair.0 first) pairs.now }
    ensures within { result ≤ length pairs.now }
{
    pairs.partition_point(|pair| pair.0 <= first)
}

/// The number of pairs whose first number is below this one.
fn count_below(pairs: &[(u32, u32)], first: u32) -> usize
    requires { PairsRise pairs.now }
    ensures count { result ≡ leading (λ pair. nat_lt pair.0 first) pairs.now }
    ensures within { result ≤ length pairs.now }
{
    pairs.partition_point(|pair| pair.0 < first)
}

/// The number of pairs that come before this one.
fn place_of(pairs: &[(u32, u32)], first: u32, second: u32) -> usize
    requires { PairsRise pairs.now }
    ensures { result ≡ leading (λ pair. is_earlier pair (first, second)) pairs.now }
{
    pairs.partition_point(|pair| is_before(pair, first, second))
}

/// Whether a pair comes before this one.
fn is_before(pair: &(u32, u32), first: u32, second: u32) -> bool
    ensures { result ≡ is_earlier pair.now (first, second) }
{
    if pair.0 == first {
        pair.1 < second
    } else {
        pair.0 < first
    }
}

/// Whether the pair at a place is this one.
fn is_at(pairs: &[(u32, u32)], place: usize, first: u32, second: u32) -> bool
    ensures { result ≡ passes (is_pair first second) (slice_get pairs.now place) }
{
    match pairs.get(place) {
        Some(pair) => pair.0 == first && pair.1 == second,
        None => false,
    }
}
