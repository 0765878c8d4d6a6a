/// What a process did: an event, which has a place of the log, a message that it took from its
/// mailbox, named by the place of its send, or a lapse of a `receive` after so many places.
#[derive(Clone, Copy, Debug, PartialEq, Eq)]
pub enum Item {
    Event { place: u64 },
    Took { place: u64 },
    Lapsed { seen: u64 },
}

/// An item with the process that did it.
#[derive(Clone, Copy, Debug, PartialEq, Eq)]
pub struct Step {
    pub pid: u64,
    pub item: Item,
}
