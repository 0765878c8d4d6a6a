//! The words of a closed table are copied out.
ghost use Rattle.std.specs.Prelude.{◌≡◌, ◌+◌, ◌<◌, ◌≤◌, [], vec_capacity};
ghost use Rattle.std.specs.Mem.Slots.{slots_items, slots_len, IsFull};
ghost use Rattle.commons_words.specs.Reading.{HasWritten, IsRowOf};

use atomic_table::Closed;
use std::alloc::Global;

/// How many of the places behind the first word are written, before one that isn't.
pub(crate) fn written_places(closed: &Closed<u8, Global>, places: usize) -> usize
    requires full { IsFull closed.now.words }
    requires within { places < slots_len closed.now.words }
    ensures { HasWritten (slots_items closed.now.words) places result }
{
    let mut n = 0;
    while n < places && closed.word(1 + n) != 0 {
        n += 1;
    }
    n
}

/// The `n` words from `start` on, in memory that was taken before.
pub(crate) fn copied(
    closed: &Closed<u8, Global>,
    start: usize,
    n: usize,
    memory: Vec<u64>,
) -> Vec<u64>
    requires full { IsFull closed.now.words }
    requires within { start + n ≤ slots_len closed.now.words }
    requires empty { memory.items ≡ [] }
    requires room { n ≤ vec_capacity memory }
    ensures { IsRowOf (slots_items closed.now.words) start n result.items }
{
    let mut words = memory;
    let mut i = 0;
    while i < n {
        words.push_reserved(closed.word(start + i));
        i += 1;
    }
    words
}
