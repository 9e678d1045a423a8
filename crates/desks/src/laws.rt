//! Laws of the open desks. Each is a function that does nothing: its contract is the law.
ghost use Rattle.desks.specs.Laws.{OneDeskAPage, OwnIsTheOne, OwnGoesAlone, StillRise};

/// The desk that is found on a page is all that stand there.
pub fn one_desk_a_page()
    ensures { OneDeskAPage }
{}

/// A user's desk on a page is the one on the page.
pub fn own_is_the_one()
    ensures { OwnIsTheOne }
{}

/// The desks without a user's on a page are those on other pages, if the one there is the user's.
pub fn own_goes_alone()
    ensures { OwnGoesAlone }
{}

/// The pages still rise after each change.
pub fn still_rise()
    ensures { StillRise }
{}
