use hy_core::{Expr, FunInfo, SiteInfo};
use hy_terms::Atoms;
use sqlite_items::Items;

/// A function of a lifted program. No `Letrec` stands in its body, and the name of an `Apply` there
/// holds the number of the function that is called, and how many parameters that takes.
#[derive(Drop)]
pub struct LiftedFunction {
    /// The number of the function of a module that it was lifted from, and of that one its own.
    pub origin: u32,
    /// What it captured comes first.
    pub params: Items<u32>,
    pub body: Expr,
    /// The nodes of its calls of `!`, `send`, `spawn` and `display`, in the order of the text: their
    /// numbers in the function that it was lifted from.
    pub nodes: Items<u32>,
}

/// A program without letrecs: its functions by their numbers, the table of atoms, what each function
/// is named after, and the sites by their numbers.
#[derive(Drop)]
pub struct Lifted {
    pub functions: Items<LiftedFunction>,
    pub atoms: Atoms,
    pub names: Vec<FunInfo>,
    pub sites: Vec<SiteInfo>,
}
