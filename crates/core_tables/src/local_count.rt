ghost use Rattle.std.specs.Prelude.{◌≡◌, ◌+◌, map, sum, OnOk};
ghost use Rattle.core_tables.specs.code.LocalCount.{local_count, clause_count, definition_count};

use hy_core::{Clause, Expr, Function};
use hy_terms::Memory;

// Adds to a count. `Memory` where the sum is too great.
fn add(count: &mut usize, more: usize) -> Result<(), Memory>
    ensures { OnOk result (count.new ≡ count.old + more) }
{
    *count = count.checked_add(more).ok_or(Memory)?;
    Ok(())
}

/// Counts the functions that the letrecs of an expression define.
#[cycle(count_locals)]
pub fn count_locals(count: &mut usize, expr: &Expr) -> Result<(), Memory>
    ensures { OnOk result (count.new ≡ count.old + local_count expr.now) }
{
    match expr {
        Expr::Int(_) | Expr::Atom(_) | Expr::Nil | Expr::Str(_) | Expr::Var(_) | Expr::Name(_) => {
            Ok(())
        }
        Expr::Tuple { site: _, parts } => count_each(count, parts.as_slice()),
        Expr::List {
            site: _,
            heads,
            tail,
        } => {
            count_each(count, heads.as_slice())?;
            count_locals(count, tail.get())
        }
        Expr::Values(parts) => count_each(count, parts.as_slice()),
        Expr::Let {
            vars: _,
            value,
            body,
        } => {
            count_locals(count, value.get())?;
            count_locals(count, body.get())
        }
        Expr::Do { first, second } => {
            count_locals(count, first.get())?;
            count_locals(count, second.get())
        }
        Expr::Case { value, clauses } => {
            count_locals(count, value.get())?;
            count_clauses(count, clauses.as_slice())
        }
        Expr::Letrec { functions, body } => {
            add(count, functions.len())?;
            count_definitions(count, functions.as_slice())?;
            count_locals(count, body.get())
        }
        Expr::Apply { what, args } => {
            count_locals(count, what.get())?;
            count_each(count, args.as_slice())
        }
        Expr::Call { module, name, args } => {
            count_locals(count, module.get())?;
            count_locals(count, name.get())?;
            count_each(count, args.as_slice())
        }
        Expr::Primop { name: _, args } => count_each(count, args.as_slice()),
        Expr::Receive {
            clauses,
            timeout,
            body,
        } => {
            count_clauses(count, clauses.as_slice())?;
            count_locals(count, timeout.get())?;
            count_locals(count, body.get())
        }
        Expr::Try {
            value,
            vars: _,
            body,
            catch_vars: _,
            catch_body,
        } => {
            count_locals(count, value.get())?;
            count_locals(count, body.get())?;
            count_locals(count, catch_body.get())
        }
        Expr::Catch(body) => count_locals(count, body.get()),
        Expr::Fun { params: _, body } => count_locals(count, body.get()),
    }
}

#[cycle(count_locals)]
fn count_each(count: &mut usize, exprs: &[Expr]) -> Result<(), Memory>
    ensures { OnOk result (count.new ≡ count.old + sum (map local_count exprs.now)) }
{
    for expr in exprs {
        count_locals(count, expr)?;
    }
    Ok(())
}

#[cycle(count_locals)]
fn count_clauses(count: &mut usize, clauses: &[Clause]) -> Result<(), Memory>
    ensures { OnOk result (count.new ≡ count.old + sum (map clause_count clauses.now)) }
{
    for clause in clauses {
        count_locals(count, &clause.guard)?;
        count_locals(count, &clause.body)?;
    }
    Ok(())
}

#[cycle(count_locals)]
fn count_definitions(count: &mut usize, functions: &[Function]) -> Result<(), Memory>
    ensures { OnOk result (count.new ≡ count.old + sum (map definition_count functions.now)) }
{
    for function in functions {
        count_locals(count, &function.body)?;
    }
    Ok(())
}
