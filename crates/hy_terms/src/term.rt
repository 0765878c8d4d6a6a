use sqlite_items::{Boxed, Items};

/// Terms in order.
pub type Terms = Items<Term>;

/// Labelled terms in order.
pub type LabelledTerms = Items<Labelled>;

/// What a program computes with. Contracts speak of terms; no call makes one.
#[derive(Drop)]
pub enum Term {
    /// A whole number from -2^59 to 2^59 - 1.
    Int(i64),
    /// The place of its text in the program's table of atoms.
    Atom(u32),
    /// The number of a process.
    Pid(u64),
    Nil,
    /// Head and tail.
    Cons(Boxed<Term>, Boxed<Term>),
    Tuple(Terms),
}

/// Where a cell stands: in the heap of one process, or in the shared area.
#[derive(Clone, Copy, Debug, PartialEq, Eq)]
pub enum Colour {
    Private,
    Shared,
}

/// A term whose cons and tuple nodes tell the site that built them and where they stand.
/// No shared node has a private child. Contracts speak of labelled terms; no call makes one.
#[derive(Drop)]
pub enum Labelled {
    Int(i64),
    Atom(u32),
    Pid(u64),
    Nil,
    Cons {
        site: u32,
        colour: Colour,
        head: Boxed<Labelled>,
        tail: Boxed<Labelled>,
    },
    Tuple {
        site: u32,
        colour: Colour,
        parts: LabelledTerms,
    },
}
