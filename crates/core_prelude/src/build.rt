//! Parts that the trees of both modules are made of.

ghost use Rattle.std.specs.Prelude.{◌≡◌, [], ◌∷◌, IfOk};
ghost use Rattle.std.specs.List.{fold};
ghost use Rattle.hy_terms.specs.Naming.{named};
ghost use Rattle.hy_core.specs.Expressions.{clause_of};
ghost use Rattle.hy_core.specs.PreludeModules as spec;
ghost use Rattle.hy_core.specs.declared.tree.Expr.TheVariants as e;
ghost use Rattle.hy_core.specs.declared.tree.Pattern.TheVariants as p;

use hy_core::{Clause, Expr, FunName, Pattern};
use hy_terms::{Atoms, Memory};
use sqlite_items::{Boxed, Items};
use std::alloc::{AllocError, Global};

// The variables of both modules, as places in `variable_names`.

/// A function's first parameter.
pub const X: u32 = 0;

/// A function's second parameter: what a walk gives at the end of its list.
pub const Y: u32 = 1;

/// The head of a list.
pub const H: u32 = 2;

/// The tail of a list.
pub const T: u32 = 3;

/// What is neither nil nor a cons.
pub const Z: u32 = 4;

/// A table of these texts, numbered from 0 in the order in which they come first.
pub fn table_of(alloc: Global, texts: &[&[u8]]) -> Result<Atoms, Memory>
    ensures { IfOk result (λ table. table ≡ fold (λ names text. (named names text.now).1) []
        texts.now) }
{
    let mut table = Atoms::new(alloc);
    for text in texts {
        // A handful of texts: the table is never full.
        table.intern(text).map_err(|_| Memory)?;
    }
    Ok(table)
}

/// The table of the variables of both modules.
#[tactic(auto, unfolding(hy_terms::specs::Naming::named))]
pub fn variable_names(alloc: Global) -> Result<Atoms, Memory>
    ensures { IfOk result (λ table. table ≡ spec.variable_names) }
{
    table_of(alloc, &[b"X", b"Y", b"H", b"T", b"Z"])
}

/// `apply FUNCTION(ARGS)`
pub fn apply(alloc: Global, function: FunName, args: Vec<Expr>) -> Result<Expr, AllocError>
    ensures { IfOk result (λ x. x ≡ e.Apply (e.Name function) args.items) }
{
    Ok(Expr::Apply {
        what: Boxed::new(alloc, Expr::Name(function))?,
        args: Items::from_vec(args),
    })
}

/// `call MODULE:NAME(ARGS)`, where both are atoms, by their places in the table of the module that
/// calls.
pub fn call(alloc: Global, module: u32, name: u32, args: Vec<Expr>) -> Result<Expr, AllocError>
    ensures { IfOk result (λ x. x ≡ e.Call (e.Atom «module») (e.Atom name) args.items) }
{
    Ok(Expr::Call {
        module: Boxed::new(alloc, Expr::Atom(module))?,
        name: Boxed::new(alloc, Expr::Atom(name))?,
        args: Items::from_vec(args),
    })
}

/// `[H|TAIL]`, where the tail is no list notation.
pub fn head_before(alloc: Global, tail: Expr) -> Result<Expr, AllocError>
    ensures { IfOk result (λ x. x ≡ spec.head_before tail) }
{
    Ok(Expr::List {
        // No text tells a site, and the reader gives 0 too.
        site: 0,
        heads: Items::from_vec(vec![in alloc; Expr::Var(H)]?),
        tail: Boxed::new(alloc, tail)?,
    })
}

/// The atoms that a walk over a list names, by their places in the table of its module.
#[derive(Clone, Copy)]
pub struct WalkAtoms {
    /// `'true'`, as a guard.
    pub truth: u32,
    pub erlang: u32,
    pub error: u32,
    pub badarg: u32,
}

// `<PATTERN> when 'true' -> BODY`
fn clause(
    alloc: Global,
    atoms: WalkAtoms,
    pattern: Pattern,
    body: Expr,
) -> Result<Clause, AllocError>
    ensures { IfOk result (λ c. c ≡ clause_of (pattern ∷ []) (e.Atom atoms.truth) body) }
{
    Ok(Clause {
        patterns: Items::from_vec(vec![in alloc; pattern]?),
        guard: Expr::Atom(atoms.truth),
        body,
    })
}

// `[H|T]`
fn cons_pattern(alloc: Global) -> Result<Pattern, AllocError>
    ensures { IfOk result (λ x. x ≡ p.List (p.Var spec.the_h ∷ []) (p.Var spec.the_t)) }
{
    Ok(Pattern::List {
        heads: Items::from_vec(vec![in alloc; Pattern::Var(H)]?),
        tail: Boxed::new(alloc, Pattern::Var(T))?,
    })
}

/// A walk over the list X that gives Y at its end:
///
/// ```text
/// case X of
///   <[]> when 'true' -> Y
///   <[H|T]> when 'true' -> STEP
///   <Z> when 'true' -> call 'erlang':'error'('badarg') end
/// ```
pub fn walk(alloc: Global, atoms: WalkAtoms, step: Expr) -> Result<Expr, AllocError>
    ensures { IfOk result (λ x. x ≡ spec.over_list atoms.truth atoms.erlang atoms.error
        atoms.badarg step) }
{
    let reason = vec![in alloc; Expr::Atom(atoms.badarg)]?;
    let refusal = call(alloc, atoms.erlang, atoms.error, reason)?;
    let clauses = vec![in alloc;
        clause(alloc, atoms, Pattern::Nil, Expr::Var(Y))?,
        clause(alloc, atoms, cons_pattern(alloc)?, step)?,
        clause(alloc, atoms, Pattern::Var(Z), refusal)?,
    ]?;
    Ok(Expr::Case {
        value: Boxed::new(alloc, Expr::Var(X))?,
        clauses: Items::from_vec(clauses),
    })
}
