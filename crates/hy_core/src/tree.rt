use crate::text::Text;
use hy_terms::Atoms;
use sqlite_items::{Boxed, Items};

/// A function's name, as a place in the table of atoms, with its number of parameters.
#[derive(Clone, Copy, Debug, PartialEq, Eq)]
pub struct FunName {
    pub name: u32,
    pub arity: u32,
}

/// A definition: its parameters are places in the table of variables.
#[cycle(syntax)]
#[derive(Drop)]
pub struct Function {
    pub name: FunName,
    pub params: Items<u32>,
    pub body: Expr,
}

/// An expression of Core Erlang. Atoms and variables are places in the tables of the module.
#[cycle(syntax)]
#[derive(Drop)]
pub enum Expr {
    Int(i64),
    Atom(u32),
    Nil,
    /// A string that isn't empty: the list of its bytes.
    Str(Text),
    Var(u32),
    /// A function's name, as the function of an `apply`.
    Name(FunName),
    Tuple {
        site: u32,
        parts: Items<Expr>,
    },
    /// A list notation. The heads aren't empty, and the tail is no `List`.
    List {
        site: u32,
        heads: Items<Expr>,
        tail: Boxed<Expr>,
    },
    /// Any number of values side by side.
    Values(Items<Expr>),
    Let {
        vars: Items<u32>,
        value: Boxed<Expr>,
        body: Boxed<Expr>,
    },
    Do {
        first: Boxed<Expr>,
        second: Boxed<Expr>,
    },
    Case {
        value: Boxed<Expr>,
        clauses: Items<Clause>,
    },
    Letrec {
        functions: Items<Function>,
        body: Boxed<Expr>,
    },
    Apply {
        what: Boxed<Expr>,
        args: Items<Expr>,
    },
    Call {
        module: Boxed<Expr>,
        name: Boxed<Expr>,
        args: Items<Expr>,
    },
    Primop {
        name: u32,
        args: Items<Expr>,
    },
    Receive {
        clauses: Items<Clause>,
        timeout: Boxed<Expr>,
        body: Boxed<Expr>,
    },
    Try {
        value: Boxed<Expr>,
        vars: Items<u32>,
        body: Boxed<Expr>,
        catch_vars: Items<u32>,
        catch_body: Boxed<Expr>,
    },
    Catch(Boxed<Expr>),
    Fun {
        params: Items<u32>,
        body: Boxed<Expr>,
    },
}

/// A pattern of Core Erlang.
#[derive(Drop)]
pub enum Pattern {
    Var(u32),
    Int(i64),
    Atom(u32),
    Nil,
    /// A string that isn't empty: the list of its bytes.
    Str(Text),
    Tuple(Items<Pattern>),
    /// A list notation. The heads aren't empty, and the tail is no `List`.
    List {
        heads: Items<Pattern>,
        tail: Boxed<Pattern>,
    },
    Alias {
        var: u32,
        pattern: Boxed<Pattern>,
    },
}

/// One way on of a `case` or a `receive`: one pattern for each value, a guard and a body.
#[cycle(syntax)]
#[derive(Drop)]
pub struct Clause {
    pub patterns: Items<Pattern>,
    pub guard: Expr,
    pub body: Expr,
}

/// A module, with the texts of its atoms and variables in the order in which they are first met.
#[derive(Drop)]
pub struct Module {
    pub name: u32,
    pub exports: Items<FunName>,
    pub functions: Items<Function>,
    pub atoms: Atoms,
    pub variables: Atoms,
}

/// The modules of a program: those that were given, and those that each program has.
#[derive(Drop)]
pub struct Program {
    pub given: Items<Module>,
    pub prelude: Items<Module>,
}
