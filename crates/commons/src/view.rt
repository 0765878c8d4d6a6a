//! What a pass knows. No value of these types is made: contracts alone speak of them.
use std::collections::LinkedList;

/// A claim that was refused: the claim word that it found, and how many words it asked for.
#[derive(Clone, Copy)]
pub struct Refusal {
    pub old: u64,
    pub asked: u64,
}

/// What a pass knows of the commons, and what it did there.
pub struct View {
    /// The number of its process.
    pub pid: u64,
    /// The words of the log from its front that it knows.
    pub known: LinkedList<u64>,
    /// While it is told what another pass knows, the log words that the other knew.
    pub told: Option<LinkedList<u64>>,
    /// The log places of its own entries, in order.
    pub own: LinkedList<u64>,
    /// The pids of its children that have a pass, in the order of their births.
    pub born: LinkedList<u64>,
    /// The pid of the child whose spawn entry it appended and that has no pass yet.
    pub unborn: Option<u64>,
    /// The first free word of its block.
    pub block_start: u64,
    /// The place behind its block. A pass with no free word has these two equal.
    pub block_end: u64,
    /// The area, with each word that it read or wrote in its place, and 0 elsewhere.
    pub seen: LinkedList<u64>,
    /// How often it looked behind the known words and found nothing.
    pub looks: u64,
    /// How many words it put.
    pub puts: u64,
    /// How many words it asked for in all its claims, refused ones too.
    pub requests: u64,
    /// Its claim that was refused.
    pub refused: Option<Refusal>,
}
