//! What each step at the table tells.
ghost use Rattle.commons_words.specs.Held.{claim_tells, put_tells, get_tells, look_tells};
ghost use Rattle.commons_words.specs.Held.{full_tells, append_tells, entry_tells, settle_tells};
ghost use Rattle.commons_words.specs.Held.{parent_seat, child_seat, note_of, told_by, spent};
ghost use Rattle.commons_words.specs.Held.{gathered};

use crate::rule::SeatView;
use atomic_table::{Join, Play, Split};

/// A fetch and add of the claim word.
pub(crate) struct Claim;

impl Play<u8, SeatView> for Claim {
    ghost then = { claim_tells };
}

/// A store of the next word of the block.
pub(crate) struct Put;

impl Play<u8, SeatView> for Put {
    ghost then = { put_tells };
}

/// A load of an area word.
pub(crate) struct Get;

impl Play<u8, SeatView> for Get {
    ghost then = { get_tells };
}

/// A load of the log word behind the known ones.
pub(crate) struct Look;

impl Play<u8, SeatView> for Look {
    ghost then = { look_tells };
}

/// A load of word 0, by a pass that knows a whole log without a free place.
pub(crate) struct Full;

impl Play<u8, SeatView> for Full {
    ghost then = { full_tells };
}

/// A compare and exchange of the log word behind the known ones.
pub(crate) struct Append;

impl Play<u8, SeatView> for Append {
    ghost then = { append_tells };
}

/// A load of a known log word.
pub(crate) struct Known;

impl Play<u8, SeatView> for Known {
    ghost then = { entry_tells };
}

/// A parent's seat is split, and its child gets one.
pub(crate) struct Birth;

impl Split<SeatView> for Birth {
    ghost left = { parent_seat };

    ghost right = { child_seat };
}

/// A note of the known log words is split off.
pub(crate) struct Note;

impl Split<SeatView> for Note {
    ghost left = { λ x. x };

    ghost right = { note_of };
}

/// A note is joined into the seat of another pass.
pub(crate) struct Telling;

impl Join<SeatView> for Telling {
    ghost both = { told_by };

    ghost spent = { spent };
}

/// A load of word 0 by a pass into whose seat a note was joined.
pub(crate) struct Settle;

impl Play<u8, SeatView> for Settle {
    ghost then = { settle_tells };
}

/// A pass is joined into another at the close.
pub(crate) struct Gathering;

impl Join<SeatView> for Gathering {
    ghost both = { gathered };

    ghost spent = { spent };
}
