//! Laws of pairs that rise. Each is a function that does nothing: its contract is the law.
ghost use Rattle.link_index.specs.Laws.{PairIsAdded, SecondIsGone, FirstsAreReplaced, SecondsArePaired, PairsStayRising, RisingPairsAreOne};

/// A pair that is put in is there, and every other one is there as before.
pub fn pair_is_added()
    ensures { PairIsAdded }
{}

/// No pair with a second number that was taken out is there, and every other one is there as
/// before.
pub fn second_is_gone()
    ensures { SecondIsGone }
{}

/// A second number that got firsts of its own is paired with these alone, and every other one as
/// before.
pub fn firsts_are_replaced()
    ensures { FirstsAreReplaced }
{}

/// The seconds of a first number are the numbers that are paired with it.
pub fn seconds_are_paired()
    ensures { SecondsArePaired }
{}

/// Pairs that rise still rise after any of these changes, and the seconds of a first number rise.
pub fn pairs_stay_rising()
    ensures { PairsStayRising }
{}

/// Two lists of pairs that rise and have the same pairs are one list.
pub fn rising_pairs_are_one()
    ensures { RisingPairsAreOne }
{}
