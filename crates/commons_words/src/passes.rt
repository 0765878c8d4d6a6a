//! A pass to the commons.
use crate::rule::SeatView;
use atomic_table::Seat;

/// A pass holds its seat at the table, and the numbers that its calls need: how many words of the
/// log it knows, and its block.
#[derive(Drop)]
pub struct WordPass {
    pub(crate) seat: Seat<u8, SeatView>,
    pub(crate) known: u64,
    pub(crate) block_start: u64,
    pub(crate) block_end: u64,
}
