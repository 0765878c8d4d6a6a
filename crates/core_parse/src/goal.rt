use core_build::{Form, Part};
use hy_core::Symbol;

/// The deepest level that is read.
pub const LEVELS: u32 = 400;

/// What closes a list of parts.
#[derive(Clone, Copy, Debug, PartialEq, Eq)]
pub enum Closer {
    /// `}`
    Tuple,
    /// `]`
    List,
    /// `)`
    Arguments,
    /// `>`
    Values,
    /// `end`
    Case,
    /// `after`
    Receive,
}

/// What is still to be read, with the level that it has.
#[derive(Clone, Copy, Debug, PartialEq, Eq)]
pub enum Goal {
    /// This keyword or mark.
    Symbol(Symbol),
    Part(Part, u32),
    /// Parts with commas between them, and what closes them.
    Parts(Part, u32, Closer),
    /// The same behind a part.
    MoreParts(Part, u32, Closer),
    /// A list notation behind its bracket, or behind a bar and the bracket of its tail.
    Heads(Part, u32),
    /// A list notation behind a head.
    MoreHeads(Part, u32),
    /// The tail of a list notation, behind its bar.
    Tail(Part, u32),
    /// Behind an atom: the rest of a function's name, or nothing.
    NameOrAtom,
    /// The arity of that name.
    Arity,
    /// Behind a pattern: the rest of an alias, or nothing.
    Alias(u32),
    /// The variables that values side by side are bound to.
    Bindings(u32),
    /// Clauses, and what closes them.
    Clauses(u32, Closer),
    /// A clause; behind a parenthesis it may turn out to be a pattern.
    Clause(u32, bool),
    /// Behind a pattern: the rest of its clause, or nothing where it stands behind a parenthesis.
    ClauseRest(u32, bool),
    /// The end of the annotation round a clause, or round a pattern with which one begins.
    ClauseNote(u32, bool),
    /// The end of an annotation whose parenthesis has this level.
    Note(u32),
    /// An atom that is dropped.
    Key(u32),
    AttributeValue(u32),
    /// The name of a primitive operation.
    Primop(u32),
    ExportArity,
    /// The arity of an export `'module_info'`.
    InfoExportArity,
    FunctionArity,
    /// The arity of a definition of `'module_info'`.
    InfoArity,
    /// Functions of a `letrec`, and the keyword behind them.
    Functions(u32),
    FunctionName(u32),
    /// Definitions of a module, and the keyword behind them.
    Definitions(u32),
    DefinitionName(u32),
    /// The parameters and the body of a definition.
    FunctionBody(u32),
    Module(u32),
    ModuleName,
    Build(Form),
}
