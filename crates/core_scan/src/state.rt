use hy_core::Sign;
use sqlite_items::Items;

/// What stands on both sides of an atom or a string.
#[derive(Clone, Copy, Debug, PartialEq, Eq)]
pub enum Quote {
    /// `'`, of an atom.
    Single,
    /// `"`, of a string.
    Double,
}

/// What was read of an escape, its `\` aside.
#[derive(Clone, Copy, Debug, PartialEq, Eq)]
pub enum Escape {
    Begun,
    /// `^`
    Control,
    /// An octal digit, with its value.
    OneDigit(u8),
    /// Two octal digits, with their value.
    TwoDigits(u8),
}

/// What one more byte makes of an escape.
#[derive(Clone, Copy, Debug, PartialEq, Eq)]
pub enum Escaping {
    /// The escape goes on.
    Open(Escape),
    /// The byte ends the escape, which stands for this byte.
    Closed(u8),
    /// The escape has ended before the byte, and stands for this byte.
    Over(u8),
    /// No escape begins so.
    Wrong,
}

/// The unfinished token, with the number of bytes that are left where it begins and what was read
/// of it.
#[derive(Drop)]
pub enum State {
    Gap,
    Comment,
    Signed(usize, Sign),
    Integer(usize, Sign, Items<u8>),
    Variable(usize, Items<u8>),
    Keyword(usize, Items<u8>),
    Quoted(usize, Quote, Items<u8>),
    QuotedEscape(usize, Quote, Items<u8>, Escape),
    Character(usize),
    CharacterEscape(usize, Escape),
    Failed(usize),
}
