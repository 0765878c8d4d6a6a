//! The tags of words. Tag 0 is that of a word that was not written.

/// The tag of the word of a number.
pub const NUMBER: u8 = 1;

/// The tag of the word of an atom.
pub const ATOM: u8 = 2;

/// The tag of the word of a pid.
pub const PID: u8 = 3;

/// The tag of the word of nil.
pub const NIL: u8 = 4;

/// The tag of the word of a cell in a process's own heap.
pub const PRIVATE: u8 = 5;

/// The tag of the word of a cell in the area.
pub const AREA: u8 = 6;

/// The tag of the header of a tuple.
pub const TUPLE: u8 = 7;

/// The tag of the header of a cons.
pub const CONS: u8 = 8;

/// The tag of the header of a send entry.
pub const SEND: u8 = 9;

/// The tag of the header of a spawn entry.
pub const SPAWN: u8 = 10;

/// The tag of the header of a print entry.
pub const PRINT: u8 = 11;
