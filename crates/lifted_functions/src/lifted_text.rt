use hy_core::Expr;
use sqlite_items::Items;

/// The text of a function of a lifted program: no `Letrec` stands in it.
#[derive(Drop)]
pub struct LiftedText {
    /// What it captured comes first.
    pub params: Items<u32>,
    pub body: Expr,
}
