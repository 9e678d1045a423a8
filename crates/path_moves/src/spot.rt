//! Spots: where a page goes among the kids that its new parent keeps.
ghost use Rattle.std.specs.Prelude.{◌≡◌, ◌+◌, ◌<◌, ◌≤◌};
ghost use Rattle.path_moves.specs.Spots.{spot_for, place_past, place_of_spot, place_without, last_place};

use crate::standing::Standing;
use site_types::Position;

/// Where a page goes among the kids that its new parent keeps.
#[derive(Clone, Copy, Debug, PartialEq, Eq)]
pub(crate) enum Spot {
    /// Before all of them.
    First,
    /// Before the one that stands at this place in path order.
    Before(usize),
    /// Behind all of them.
    End,
}

/// The spot of a position, where the target stands at `place`, and the rows of the new parent end at
/// `end`. The row behind the target's subtree that does not move stands at `next`.
pub(crate) fn spot_for(position: Position, place: usize, next: usize, end: usize) -> Spot
    ensures { result ≡ spot_for position place next end }
{
    match position {
        Position::FirstChild | Position::FirstSibling => Spot::First,
        Position::LastChild | Position::LastSibling => Spot::End,
        Position::Left => Spot::Before(place),
        Position::Right => {
            if next < end {
                Spot::Before(next)
            } else {
                Spot::End
            }
        }
    }
}

/// The place, or the one behind the page's rows where it is among them.
pub(crate) fn place_past(own: &Standing, here: usize) -> usize
    requires { own.now.place + own.now.count < 18446744073709551616 }
    ensures { result ≡ place_past own.now.place own.now.count here }
{
    if here < own.place {
        here
    } else {
        here.max(own.place + own.count)
    }
}

/// The place of the last row before `end`, other than the page's rows where those end there.
pub(crate) fn last_place(own: &Standing, end: usize) -> usize
    requires { own.now.place + own.now.count < 18446744073709551616 }
    ensures { result ≡ last_place own.now.place own.now.count end }
{
    if own.place < end {
        if own.place + own.count < end {
            end.saturating_sub(1)
        } else {
            own.place.saturating_sub(1)
        }
    } else {
        end.saturating_sub(1)
    }
}

/// The place of a spot, where the new parent stands at `top` and its rows end at `end`.
pub(crate) fn place_of_spot(spot: Spot, top: usize, end: usize) -> usize
    requires { top + 1 ≤ end }
    ensures { result ≡ place_of_spot spot top end }
{
    match spot {
        Spot::First => top + 1,
        Spot::Before(place) => place,
        Spot::End => end,
    }
}

/// The place, without the page's rows that stand before it.
pub(crate) fn place_without(own: &Standing, here: usize) -> usize
    ensures { result ≡ place_without own.now.place own.now.count here }
{
    here - own.count.min(here.saturating_sub(own.place))
}
