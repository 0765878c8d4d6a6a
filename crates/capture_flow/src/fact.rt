/// A variable that a function has, with the place of its binding.
#[derive(Clone, Copy, PartialEq, Eq, Hash)]
pub struct Member {
    pub function: u32,
    pub variable: u32,
    pub place: u32,
}

/// A function uses another one: it has what that one has, of the places up to a depth.
#[derive(Clone, Copy)]
pub struct Edge {
    pub function: u32,
    pub used: u32,
    pub depth: u32,
}

/// What is known of functions.
#[derive(Clone, Copy)]
pub enum Fact {
    Occurs(Member),
    Uses(Edge),
}
