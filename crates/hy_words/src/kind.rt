/// What a word stands for at its root. A number is from -2^59 to 2^59 - 1, an atom is its place in
/// the program's table, and a site is the number of the expression that built the cell.
#[derive(Clone, Copy, Debug, PartialEq, Eq)]
pub enum Kind {
    Int(i64),
    Atom(u32),
    Pid(u64),
    Nil,
    Cons { site: u32 },
    Tuple { size: u64, site: u32 },
}

/// What an entry of the log tells of its actor.
#[derive(Clone, Copy, Debug, PartialEq, Eq)]
pub enum Entry {
    Send,
    Spawn,
    Print,
}
