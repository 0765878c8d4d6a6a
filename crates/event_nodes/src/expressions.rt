ghost use Rattle.std.specs.Prelude.{◌≡◌, map, OnOk};
ghost use Rattle.hy_core.specs.Syntax.{clauses_of, definitions_of, syntax_of, syntaxes_of};
ghost use Rattle.event_nodes.specs.code.Walked.{
  aside,
  walked,
  walked_all,
  walked_clause,
  walked_clauses,
  walked_definition,
  walked_definitions,
  walked_functions,
  walked_parts,
  walked_tail,
};
ghost use Rattle.letrec_names.specs.Parts.{clause_syntax, function_syntax};

use crate::calls::{is_event, is_nil};
use crate::events::Events;
use hy_core::{Clause, Expr, Function};
use hy_terms::{Atoms, Memory};
use sqlite_items::Items;

// Finds the events of an expression in a function: its own node comes before its parts.
#[cycle(walk_expr)]
fn walk_expr(atoms: &Atoms, owner: u32, walk: &mut Events, expr: &Expr) -> Result<(), Memory>
    ensures { OnOk result (walk.new ≡ walked atoms.now owner walk.old (syntax_of expr.now)) }
{
    walk.step(is_event(atoms, expr), owner)?;
    walk_parts(atoms, owner, walk, expr)
}

// The parts of an expression, in the order of the text.
#[cycle(walk_expr)]
fn walk_parts(atoms: &Atoms, owner: u32, walk: &mut Events, expr: &Expr) -> Result<(), Memory>
    ensures { OnOk result (walk.new ≡ walked_parts atoms.now owner walk.old (syntax_of expr.now)) }
{
    match expr {
        Expr::Int(_) | Expr::Atom(_) | Expr::Nil | Expr::Str(_) | Expr::Var(_) | Expr::Name(_) =>
            Ok(()),
        Expr::Tuple { site: _, parts } | Expr::Values(parts) => {
            walk_each(atoms, owner, walk, parts)
        }
        Expr::Primop { name: _, args } => walk_each(atoms, owner, walk, args),
        Expr::List {
            site: _,
            heads,
            tail,
        } => {
            walk_each(atoms, owner, walk, heads)?;
            walk_tail(atoms, owner, walk, tail.get())
        }
        Expr::Let {
            vars: _,
            value,
            body,
        } => {
            walk_expr(atoms, owner, walk, value.get())?;
            walk_expr(atoms, owner, walk, body.get())
        }
        Expr::Do { first, second } => {
            walk_expr(atoms, owner, walk, first.get())?;
            walk_expr(atoms, owner, walk, second.get())
        }
        Expr::Case { value, clauses } => {
            walk_expr(atoms, owner, walk, value.get())?;
            walk_clauses(atoms, owner, walk, clauses)
        }
        Expr::Letrec { functions, body } => {
            walk_definitions(atoms, walk, functions)?;
            walk_expr(atoms, owner, walk, body.get())
        }
        Expr::Apply { what, args } => {
            walk_aside(atoms, owner, walk, what.get())?;
            walk_each(atoms, owner, walk, args)
        }
        Expr::Call { module, name, args } => {
            walk_aside(atoms, owner, walk, module.get())?;
            walk_aside(atoms, owner, walk, name.get())?;
            walk_each(atoms, owner, walk, args)
        }
        Expr::Receive {
            clauses,
            timeout,
            body,
        } => {
            let first = walk.next();
            walk_clauses(atoms, owner, walk, clauses)?;
            let behind = walk.next();
            walk.back_to(first);
            walk_expr(atoms, owner, walk, timeout.get())?;
            walk.back_to(behind);
            walk_expr(atoms, owner, walk, body.get())
        }
        // The functions of its first part alone have numbers.
        Expr::Try {
            value,
            vars: _,
            body,
            catch_vars: _,
            catch_body,
        } => {
            let first = walk.next();
            walk_expr(atoms, owner, walk, value.get())?;
            let behind = walk.next();
            walk.back_to(first);
            walk_aside(atoms, owner, walk, body.get())?;
            walk_expr(atoms, owner, walk, catch_body.get())?;
            walk.back_to(behind);
            Ok(())
        }
        Expr::Catch(body) | Expr::Fun { params: _, body } => {
            walk_aside(atoms, owner, walk, body.get())
        }
    }
}

// An expression in which functions have no numbers.
#[cycle(walk_expr)]
fn walk_aside(atoms: &Atoms, owner: u32, walk: &mut Events, expr: &Expr) -> Result<(), Memory>
    ensures { OnOk result (walk.new ≡ aside atoms.now owner walk.old (syntax_of expr.now)) }
{
    let next = walk.next();
    walk_expr(atoms, owner, walk, expr)?;
    walk.back_to(next);
    Ok(())
}

// The tail of a list notation, where nil is no node.
#[cycle(walk_expr)]
fn walk_tail(atoms: &Atoms, owner: u32, walk: &mut Events, tail: &Expr) -> Result<(), Memory>
    ensures { OnOk result (walk.new ≡ walked_tail atoms.now owner walk.old (syntax_of tail.now)) }
{
    if is_nil(tail) {
        Ok(())
    } else {
        walk_expr(atoms, owner, walk, tail)
    }
}

// Expressions one after another.
#[cycle(walk_expr)]
fn walk_each(
    atoms: &Atoms,
    owner: u32,
    walk: &mut Events,
    exprs: &Items<Expr>,
) -> Result<(), Memory>
    ensures { OnOk result (walk.new
        ≡ walked_all atoms.now owner walk.old (syntaxes_of (map syntax_of exprs.now))) }
{
    for expr in exprs.as_slice() {
        walk_expr(atoms, owner, walk, expr)?;
    }
    Ok(())
}

// A clause: the nodes of its patterns come before its guard and its body.
#[cycle(walk_expr)]
fn walk_clause(atoms: &Atoms, owner: u32, walk: &mut Events, clause: &Clause) -> Result<(), Memory>
    ensures { OnOk result (walk.new
        ≡ walked_clause atoms.now owner walk.old (clause_syntax clause.now)) }
{
    walk.pass(clause.patterns.as_slice())?;
    walk_expr(atoms, owner, walk, &clause.guard)?;
    walk_expr(atoms, owner, walk, &clause.body)
}

// Clauses one after another.
#[cycle(walk_expr)]
fn walk_clauses(
    atoms: &Atoms,
    owner: u32,
    walk: &mut Events,
    clauses: &Items<Clause>,
) -> Result<(), Memory>
    ensures { OnOk result (walk.new
        ≡ walked_clauses atoms.now owner walk.old (clauses_of (map clause_syntax clauses.now))) }
{
    for clause in clauses.as_slice() {
        walk_clause(atoms, owner, walk, clause)?;
    }
    Ok(())
}

// A function of a letrec: its body's events are its own.
#[cycle(walk_expr)]
fn walk_definition(atoms: &Atoms, walk: &mut Events, function: &Function) -> Result<(), Memory>
    ensures { OnOk result (walk.new
        ≡ walked_definition atoms.now walk.old (function_syntax function.now)) }
{
    let own = walk.define()?;
    walk_expr(atoms, own, walk, &function.body)
}

// The functions of a letrec one after another.
#[cycle(walk_expr)]
fn walk_definitions(
    atoms: &Atoms,
    walk: &mut Events,
    functions: &Items<Function>,
) -> Result<(), Memory>
    ensures { OnOk result (walk.new ≡ walked_definitions atoms.now walk.old
        (definitions_of (map function_syntax functions.now))) }
{
    for function in functions.as_slice() {
        walk_definition(atoms, walk, function)?;
    }
    Ok(())
}

/// Finds the events of the functions of a module.
pub fn walk_functions(
    atoms: &Atoms,
    walk: &mut Events,
    functions: &[Function],
) -> Result<(), Memory>
    ensures { OnOk result (walk.new ≡ walked_functions atoms.now walk.old functions.now) }
{
    for function in functions {
        let own = walk.begin()?;
        walk_expr(atoms, own, walk, &function.body)?;
    }
    Ok(())
}
