ghost use Rattle.std.specs.Prelude.{◌≡◌, map, OnOk};
ghost use Rattle.hy_core.specs.Syntax.{clauses_of, definitions_of, syntax_of, syntaxes_of};
ghost use Rattle.captured_variables.specs.code.Walked.{
  walked,
  walked_all,
  walked_bound,
  walked_clause,
  walked_clauses,
  walked_definition,
  walked_definitions,
  walked_functions,
};
ghost use Rattle.letrec_names.specs.Parts.{clause_syntax, function_syntax};

use crate::gathering::{Gathering, apply_what};
use captured_facts::Owner;
use hy_core::{Clause, Expr, Function};
use hy_terms::Memory;
use letrec_names::NestedCounts;
use sqlite_items::Items;

// Gathers the facts of an expression, in the text of a function.
#[cycle(gather_expr)]
fn gather_expr(
    counts: &NestedCounts,
    owner: Owner,
    walk: &mut Gathering,
    expr: &Expr,
) -> Result<(), Memory>
    ensures { OnOk result (walk.new ≡ walked counts.now owner walk.old (syntax_of expr.now)) }
{
    match expr {
        Expr::Int(_)
        | Expr::Atom(_)
        | Expr::Nil
        | Expr::Str(_)
        | Expr::Name(_)
        | Expr::Catch(_)
        | Expr::Fun { params: _, body: _ } => Ok(()),
        Expr::Var(variable) => walk.occur(owner, *variable),
        Expr::Tuple { site: _, parts } | Expr::Values(parts) => {
            gather_each(counts, owner, walk, parts)
        }
        Expr::List {
            site: _,
            heads,
            tail,
        } => {
            gather_each(counts, owner, walk, heads)?;
            gather_expr(counts, owner, walk, tail.get())
        }
        Expr::Let { vars, value, body } => {
            gather_expr(counts, owner, walk, value.get())?;
            gather_bound(counts, owner, walk, vars, body.get())
        }
        Expr::Do { first, second } => {
            gather_expr(counts, owner, walk, first.get())?;
            gather_expr(counts, owner, walk, second.get())
        }
        Expr::Case { value, clauses } => {
            gather_expr(counts, owner, walk, value.get())?;
            gather_clauses(counts, owner, walk, clauses)
        }
        // Its functions are around them and its body.
        Expr::Letrec { functions, body } => {
            let height = walk.height();
            walk.enter(counts, functions.as_slice())?;
            gather_definitions(counts, owner, walk, functions)?;
            gather_expr(counts, owner, walk, body.get())?;
            walk.leave(height);
            Ok(())
        }
        Expr::Apply { what, args } => {
            apply_what(owner, walk, what.get())?;
            gather_each(counts, owner, walk, args)
        }
        Expr::Call {
            module: _,
            name: _,
            args,
        }
        | Expr::Primop { name: _, args } => gather_each(counts, owner, walk, args),
        Expr::Receive {
            clauses,
            timeout: _,
            body,
        } => {
            gather_clauses(counts, owner, walk, clauses)?;
            gather_expr(counts, owner, walk, body.get())
        }
        // The guard form, which stands for its first part.
        Expr::Try {
            value,
            vars: _,
            body: _,
            catch_vars: _,
            catch_body: _,
        } => gather_expr(counts, owner, walk, value.get()),
    }
}

// An expression under variables that are bound in it alone.
#[cycle(gather_expr)]
fn gather_bound(
    counts: &NestedCounts,
    owner: Owner,
    walk: &mut Gathering,
    vars: &Items<u32>,
    body: &Expr,
) -> Result<(), Memory>
    ensures { OnOk result (walk.new
        ≡ walked_bound counts.now owner walk.old vars.now (syntax_of body.now)) }
{
    let depth = walk.depth();
    walk.bind(vars.as_slice())?;
    gather_expr(counts, owner, walk, body)?;
    walk.back_to(depth);
    Ok(())
}

// Expressions one after another.
#[cycle(gather_expr)]
fn gather_each(
    counts: &NestedCounts,
    owner: Owner,
    walk: &mut Gathering,
    exprs: &Items<Expr>,
) -> Result<(), Memory>
    ensures { OnOk result (walk.new
        ≡ walked_all counts.now owner walk.old (syntaxes_of (map syntax_of exprs.now))) }
{
    for expr in exprs.as_slice() {
        gather_expr(counts, owner, walk, expr)?;
    }
    Ok(())
}

// A clause: its patterns bind for its guard and its body.
#[cycle(gather_expr)]
fn gather_clause(
    counts: &NestedCounts,
    owner: Owner,
    walk: &mut Gathering,
    clause: &Clause,
) -> Result<(), Memory>
    ensures { OnOk result (walk.new
        ≡ walked_clause counts.now owner walk.old (clause_syntax clause.now)) }
{
    let depth = walk.depth();
    walk.match_patterns(clause.patterns.as_slice())?;
    gather_expr(counts, owner, walk, &clause.guard)?;
    gather_expr(counts, owner, walk, &clause.body)?;
    walk.back_to(depth);
    Ok(())
}

// Clauses one after another.
#[cycle(gather_expr)]
fn gather_clauses(
    counts: &NestedCounts,
    owner: Owner,
    walk: &mut Gathering,
    clauses: &Items<Clause>,
) -> Result<(), Memory>
    ensures { OnOk result (walk.new
        ≡ walked_clauses counts.now owner walk.old (clauses_of (map clause_syntax clauses.now))) }
{
    for clause in clauses.as_slice() {
        gather_clause(counts, owner, walk, clause)?;
    }
    Ok(())
}

// A function of a letrec, which is used by the one around.
#[cycle(gather_expr)]
fn gather_definition(
    counts: &NestedCounts,
    owner: Owner,
    walk: &mut Gathering,
    function: &Function,
) -> Result<(), Memory>
    ensures { OnOk result (walk.new
        ≡ walked_definition counts.now owner walk.old (function_syntax function.now)) }
{
    let inner = walk.owner()?;
    walk.begin(owner)?;
    gather_bound(counts, inner, walk, &function.params, &function.body)
}

// The functions of a letrec one after another.
#[cycle(gather_expr)]
fn gather_definitions(
    counts: &NestedCounts,
    owner: Owner,
    walk: &mut Gathering,
    functions: &Items<Function>,
) -> Result<(), Memory>
    ensures { OnOk result (walk.new ≡ walked_definitions counts.now owner walk.old
        (definitions_of (map function_syntax functions.now))) }
{
    for function in functions.as_slice() {
        gather_definition(counts, owner, walk, function)?;
    }
    Ok(())
}

/// Gathers the facts of the functions of a module.
pub fn gather_functions(
    counts: &NestedCounts,
    walk: &mut Gathering,
    functions: &[Function],
) -> Result<(), Memory>
    ensures { OnOk result (walk.new ≡ walked_functions counts.now walk.old functions.now) }
{
    let owner = Owner {
        function: 0,
        depth: 0,
    };
    for function in functions {
        gather_bound(counts, owner, walk, &function.params, &function.body)?;
    }
    Ok(())
}
