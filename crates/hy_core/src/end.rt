use crate::class::Class;
use crate::text::Text;

/// Why a process was stopped.
#[derive(Clone, Copy, Debug, PartialEq, Eq)]
pub enum Cause {
    /// A call was due, and as many as the limit were made.
    Calls { used: u64, limit: u64 },
    /// The private heap had `used` words, and `asked` more go past the limit.
    Heap { used: u64, asked: u64, limit: u64 },
    /// The claim word was `old`, and `asked` more words go past the capacity of the area.
    Area { old: u64, asked: u64, capacity: u64 },
    /// The log was full, with `seen` places.
    Log { seen: u64 },
    /// There was no memory.
    Memory,
}

/// How a process ended, with the printed text of its value or of what it raised.
#[derive(Drop)]
pub enum End {
    Ended(Text),
    Raised(Class, Text),
    /// It waits for good: at a `receive` without a timeout, with no message that is accepted.
    Waits,
    Stopped(Cause),
}
