//! Laws of what readers see. Each is a function that does nothing: its contract is the law.
ghost use Rattle.sight_model.specs.Laws.{CardsKeepTheirPage, OnlyLivePagesArePublic, LivePagesArePublic, KidsAreLive, KidsAreFew, NoKidIsLeftOut, AliasesShowTheirSource};

/// The page of a card is the one that the card was asked of.
pub fn cards_keep_their_page()
    ensures { CardsKeepTheirPage }
{}

/// What everybody is answered at a URL is the card of a live page with this URL.
pub fn only_live_pages_are_public()
    ensures { OnlyLivePagesArePublic }
{}

/// If a live page has a URL, everybody is answered a card there.
pub fn live_pages_are_public()
    ensures { LivePagesArePublic }
{}

/// Each kid that a card tells is a live kid of the card's page.
pub fn kids_are_live()
    ensures { KidsAreLive }
{}

/// No card tells more than `MAX_KIDS` kids.
pub fn kids_are_few()
    ensures { KidsAreFew }
{}

/// A card that tells fewer than `MAX_KIDS` kids tells every live kid of its page.
pub fn no_kid_is_left_out()
    ensures { NoKidIsLeftOut }
{}

/// An alias of a regular page shows what its source shows, and is live where that is.
pub fn aliases_show_their_source()
    ensures { AliasesShowTheirSource }
{}
