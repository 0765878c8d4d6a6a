//! What a seat at the table knows, and the rule of the table.
use atomic_table::TableRule;
use commons::View;
use std::collections::LinkedList;

/// What a seat is for: the pass of a process, the known log words that one pass tells another, or
/// nothing any more.
pub enum Role {
    Process,
    Note,
    Spent,
}

/// What a seat knows. No value of it is made.
pub struct SeatView {
    pub role: Role,
    pub area_size: u64,
    pub log_size: u64,
    pub view: View,
    /// The views of the passes that were joined in at the close.
    pub joined: LinkedList<View>,
}

/// The sizes of a commons: its words of the area and its places of the log.
#[derive(Drop)]
pub struct Sizes {
    pub area: u64,
    pub log: u64,
}

/// The rule of the commons holds of the words of the table, between any two steps.
pub struct SharedRule;

impl TableRule<u8, SeatView, Sizes> for SharedRule {
    ghost use Rattle.commons_words.specs.Held.{IsHeld, first_seat};

    ghost holds = { λ sizes s. IsHeld sizes.area sizes.log s };

    ghost first = { λ sizes. first_seat sizes.area sizes.log };
}
