use crate::tree::FunName;

/// A function of a program: the atom of its module's name, and its own name. A function of a
/// `letrec` has that of the top function around it.
#[derive(Clone, Copy, Debug, PartialEq, Eq)]
pub struct FunInfo {
    pub module: u32,
    pub name: FunName,
}

/// What is built at a site.
#[derive(Clone, Copy, Debug, PartialEq, Eq)]
pub enum SiteKind {
    Tuple,
    Cons,
    String,
    Setelement,
}

/// A place in the program at which cells are built: the number of the function in which it
/// stands, and its node there.
#[derive(Clone, Copy, Debug, PartialEq, Eq)]
pub struct SiteInfo {
    pub function: u32,
    pub node: u32,
    pub kind: SiteKind,
}
