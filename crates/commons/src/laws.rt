//! Laws of what a pass knows and of what entries tell. These functions only carry them.
ghost use Rattle.commons.specs.Laws.{KnowingMoreKeepsTerms, KnownPlacesTell, OneEntryOneEvent, LongerIsLongest};

/// What a word stands for stays, whatever more the pass knows and its heap has.
pub fn knowing_more_keeps_terms()
    ensures { KnowingMoreKeepsTerms }
{}

/// In each area that fits a pass, each place of the log that it knows tells an event, and no entry
/// tells two.
pub fn known_places_tell()
    ensures events { KnownPlacesTell }
    ensures once { OneEntryOneEvent }
{}

/// A pass that was told what another knows knows as many log words as the one of both that knew
/// more.
pub fn longer_is_longest()
    ensures { LongerIsLongest }
{}
