use hy_core::{Clause, Expr, FunName, Function, Pattern, Tables};
use sqlite_items::Items;

/// A part that is read, until the tree that it belongs to is built.
#[derive(Drop)]
pub enum Value {
    Expr(Expr),
    Exprs(Items<Expr>),
    Pattern(Pattern),
    Patterns(Items<Pattern>),
    Variable(u32),
    Variables(Items<u32>),
    Clauses(Items<Clause>),
    Functions(Items<Function>),
    Name(FunName),
    /// In the place of a dropped definition's name: the tables before it.
    Dropped(Tables),
    Names(Items<FunName>),
    Atom(u32),
}

/// What stands for the name of a definition: the name, or the tables before a dropped one.
#[derive(Drop)]
pub enum Head {
    Name(FunName),
    Dropped(Tables),
}
