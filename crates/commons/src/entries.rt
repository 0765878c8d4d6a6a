//! Rows of words and entries of the log, put by any commons.
ghost use Rattle.std.specs.Prelude.{◌≡◌, ℕ, List, ◌+◌, ◌^◌, ◌<◌, ◌≤◌, length, slice_index};
ghost use Rattle.hy_words.specs.Words.{IsPidWord, IsScalar, area_word_of, payload_of, tag_of, tag_of_entry};
ghost use Rattle.commons.specs.Log.{header_at, HasPrintWords, HasSendWords, HasSpawnWords, HasWords};
ghost use Rattle.commons.specs.Views.{Fits, HasPrinted, MayAppend, MayPutAll, MayShare, MayShareAll};
ghost use Rattle.commons.specs.Changes.{IsSameButSeen, KeepsOthers, PutsRow, PutsWords};

use crate::contract::Commons;
use hy_words::{Entry, area_word, entry_header, int_word, pid_word, tag, tags};

/// Puts the words into the block, one behind the other, and answers the place of the first. The
/// block has room for them, and each may be put by what the pass knows at the start. For no words
/// the answer tells nothing.
pub fn put_words<C: Commons>(c: &mut C, pass: &mut C::Pass, words: &[u64]) -> u64
    requires pass { C.is_pass c.old pass.old }
    requires room { (C.view c.old pass.old).block_start + length words.now
        ≤ (C.view c.old pass.old).block_end }
    requires words { MayPutAll (C.area_size c.old) (C.view c.old pass.old) words.now }
    ensures later { C.later c.old c.new }
    ensures others { KeepsOthers C.is_pass C.apart C.view c.old pass.old c.new pass.new }
    ensures place { 0 < length words.now → result ≡ (C.view c.old pass.old).block_start }
    ensures put { PutsRow (C.view c.old pass.old) words.now (C.view c.new pass.new) }
{
    let mut start = 0;
    for k in 0..words.len() {
        start = c.put(pass, words[k]) - k as u64;
    }
    start
}

/// Puts the four words of a send entry into the block, and answers the area word that names it. The
/// actor is the pass's own pid, the target the word of a pid. The message is a scalar, or names a
/// tuple or cons that the pass knows. The pass may append the entry.
pub fn put_send<C: Commons>(
    c: &mut C,
    pass: &mut C::Pass,
    actor: u64,
    target: u64,
    message: u64,
) -> u64
    requires pass { C.is_pass c.old pass.old }
    requires room { (C.view c.old pass.old).block_start + 4 ≤ (C.view c.old pass.old).block_end }
    requires actor { actor ≡ (C.view c.old pass.old).pid }
    requires target { IsScalar target × IsPidWord target }
    requires message { MayShare (C.area_size c.old) (C.view c.old pass.old) message }
    ensures later { C.later c.old c.new }
    ensures others { KeepsOthers C.is_pass C.apart C.view c.old pass.old c.new pass.new }
    ensures word { result ≡ area_word_of (C.view c.old pass.old).block_start }
    ensures puts { PutsWords (C.view c.old pass.old) 4 (C.view c.new pass.new) }
    ensures words { HasSendWords (C.view c.new pass.new).seen
        (C.view c.old pass.old).block_start actor (payload_of target) }
    ensures message { message ≡ slice_index (C.view c.new pass.new).seen
        ((C.view c.old pass.old).block_start + 3) }
    ensures entry { MayAppend (C.area_size c.new) (C.view c.new pass.new) result }
{
    let header = entry_header(Entry::Send, 3);
    area_word(put_words(c, pass, &[header, pid_word(actor), target, message]))
}

/// Puts the words of a spawn entry into the block, three and one for each argument, and answers the
/// area word that names it. The actor is the pass's own pid, and the function is told by its
/// number. Each argument is a scalar, or names a tuple or cons that the pass knows. The pass may
/// append the entry.
pub fn put_spawn<C: Commons>(
    c: &mut C,
    pass: &mut C::Pass,
    actor: u64,
    function: u32,
    arguments: &[u64],
) -> u64
    requires pass { C.is_pass c.old pass.old }
    requires room { (C.view c.old pass.old).block_start + 3 + length arguments.now
        ≤ (C.view c.old pass.old).block_end }
    requires actor { actor ≡ (C.view c.old pass.old).pid }
    requires arguments { MayShareAll (C.area_size c.old) (C.view c.old pass.old) arguments.now }
    ensures later { C.later c.old c.new }
    ensures others { KeepsOthers C.is_pass C.apart C.view c.old pass.old c.new pass.new }
    ensures word { result ≡ area_word_of (C.view c.old pass.old).block_start }
    ensures puts { PutsWords (C.view c.old pass.old) (3 + length arguments.now)
        (C.view c.new pass.new) }
    ensures words { HasSpawnWords (C.view c.new pass.new).seen
        (C.view c.old pass.old).block_start actor function (length arguments.now) }
    ensures arguments { HasWords (C.view c.new pass.new).seen
        ((C.view c.old pass.old).block_start + 3) arguments.now }
    ensures entry { MayAppend (C.area_size c.new) (C.view c.new pass.new) result }
{
    let header = entry_header(Entry::Spawn, 2 + arguments.len() as u64);
    let start = put_words(
        c,
        pass,
        &[header, pid_word(actor), int_word(i64::from(function))],
    );
    put_words(c, pass, arguments);
    area_word(start)
}

/// Puts the three words of a print entry into the block, and answers the area word that names it.
/// The actor is the pass's own pid, and the text the number of its print entries so far. The pass
/// may append the entry.
pub fn put_print<C: Commons>(c: &mut C, pass: &mut C::Pass, actor: u64, text: u64) -> u64
    requires pass { C.is_pass c.old pass.old }
    requires room { (C.view c.old pass.old).block_start + 3 ≤ (C.view c.old pass.old).block_end }
    requires actor { actor ≡ (C.view c.old pass.old).pid }
    requires low { text < 2 ^ 59 }
    requires text { HasPrinted (C.area_size c.old) (C.view c.old pass.old) text }
    ensures later { C.later c.old c.new }
    ensures others { KeepsOthers C.is_pass C.apart C.view c.old pass.old c.new pass.new }
    ensures word { result ≡ area_word_of (C.view c.old pass.old).block_start }
    ensures puts { PutsWords (C.view c.old pass.old) 3 (C.view c.new pass.new) }
    ensures words { HasPrintWords (C.view c.new pass.new).seen
        (C.view c.old pass.old).block_start actor text }
    ensures entry { MayAppend (C.area_size c.new) (C.view c.new pass.new) result }
{
    let header = entry_header(Entry::Print, 2);
    area_word(put_words(c, pass, &[header, pid_word(actor), int_word(text as i64)]))
}

/// The kind of the entry at a known place of the log. It reads the entry's header.
pub fn entry_kind<C: Commons>(c: &mut C, pass: &mut C::Pass, place: u64) -> Entry
    requires pass { C.is_pass c.old pass.old }
    requires place { place < length (C.view c.old pass.old).known }
    ensures later { C.later c.old c.new }
    ensures others { KeepsOthers C.is_pass C.apart C.view c.old pass.old c.new pass.new }
    ensures same { IsSameButSeen (C.view c.old pass.old) (C.view c.new pass.new) }
    ensures kind { (area : List ℕ) → Fits (C.area_size c.new) (C.view c.new pass.new) area
        → tag_of (header_at area (slice_index (C.view c.new pass.new).known place))
        ≡ tag_of_entry result }
{
    let cell = c.entry(pass, place);
    let kind = tag(c.get(pass, cell));
    if kind == tags::SEND {
        Entry::Send
    } else if kind == tags::SPAWN {
        Entry::Spawn
    } else {
        Entry::Print
    }
}
