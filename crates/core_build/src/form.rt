/// What stands between the commas of a list of parts.
#[derive(Clone, Copy, Debug, PartialEq, Eq)]
pub enum Part {
    Expr,
    Pattern,
    Constant,
    /// A variable that is bound.
    Variable,
    /// An exported name.
    Export,
    Attribute,
}

/// What a tree is made of whose parts are read: they lie on the stack of values, the last on top.
#[derive(Clone, Copy, Debug, PartialEq, Eq)]
pub enum Form {
    /// The one variable that a value is bound to.
    OneVariable,
    Tuple,
    Values,
    Let,
    Do,
    /// The clauses of a `case`, of which none is read yet.
    NoClauses,
    Case,
    Letrec,
    Apply,
    Call,
    Primop,
    Receive,
    Try,
    Catch,
    Fun,
    /// A clause behind those before it.
    Clause,
    /// A function of a `letrec` behind those before it.
    Function,
    /// The definitions of a module, of which none is read yet.
    NoFunctions,
    /// A definition of a module behind those before it, unless it is dropped.
    Definition,
    /// A list notation whose tail stands behind a bar.
    Join(Part),
    PatternTuple,
    Alias,
}
