ghost use Rattle.std.specs.Prelude.{◌≡◌, map, OnOk};
ghost use Rattle.hy_core.specs.Syntax.{clauses_of, definitions_of, syntax_of, syntaxes_of};
ghost use Rattle.letrec_names.specs.code.Passed.{
  finished,
  passed,
  passed_all,
  passed_clause,
  passed_clauses,
  passed_definition,
  passed_definitions,
  passed_functions,
};
ghost use Rattle.letrec_names.specs.Parts.{clause_syntax, function_syntax};

use hy_core::{Clause, Expr, Function};
use hy_terms::Memory;
use sqlite_items::Items;

// The count whose place this is: as many as stand behind it.
fn finish(counts: &mut Vec<u32>, place: usize) -> Result<(), Memory>
    ensures { OnOk result (counts.new.items ≡ finished place counts.old.items) }
{
    let behind = counts.len().saturating_sub(place).saturating_sub(1);
    let behind = u32::try_from(behind).map_err(|_| Memory)?;
    if let Some(count) = counts.get_mut(place) {
        *count = behind;
    }
    Ok(())
}

// Puts the counts of an expression behind others.
#[cycle(pass_expr)]
pub(crate) fn pass_expr(counts: &mut Vec<u32>, expr: &Expr) -> Result<(), Memory>
    ensures { OnOk result (counts.new.items ≡ passed counts.old.items (syntax_of expr.now)) }
{
    match expr {
        Expr::Int(_)
        | Expr::Atom(_)
        | Expr::Nil
        | Expr::Str(_)
        | Expr::Var(_)
        | Expr::Name(_)
        | Expr::Catch(_)
        | Expr::Fun { params: _, body: _ } => Ok(()),
        Expr::Tuple { site: _, parts } | Expr::Values(parts) => pass_each(counts, parts),
        Expr::List {
            site: _,
            heads,
            tail,
        } => {
            pass_each(counts, heads)?;
            pass_expr(counts, tail.get())
        }
        Expr::Let {
            vars: _,
            value,
            body,
        } => {
            pass_expr(counts, value.get())?;
            pass_expr(counts, body.get())
        }
        Expr::Do { first, second } => {
            pass_expr(counts, first.get())?;
            pass_expr(counts, second.get())
        }
        Expr::Case { value, clauses } => {
            pass_expr(counts, value.get())?;
            pass_clauses(counts, clauses)
        }
        Expr::Letrec { functions, body } => {
            pass_definitions(counts, functions)?;
            pass_expr(counts, body.get())
        }
        Expr::Apply { what: _, args }
        | Expr::Call {
            module: _,
            name: _,
            args,
        }
        | Expr::Primop { name: _, args } => pass_each(counts, args),
        Expr::Receive {
            clauses,
            timeout: _,
            body,
        } => {
            pass_clauses(counts, clauses)?;
            pass_expr(counts, body.get())
        }
        // The guard form, which stands for its first part.
        Expr::Try {
            value,
            vars: _,
            body: _,
            catch_vars: _,
            catch_body: _,
        } => pass_expr(counts, value.get()),
    }
}

#[cycle(pass_expr)]
fn pass_each(counts: &mut Vec<u32>, exprs: &Items<Expr>) -> Result<(), Memory>
    ensures { OnOk result (counts.new.items
        ≡ passed_all counts.old.items (syntaxes_of (map syntax_of exprs.now))) }
{
    for expr in exprs.as_slice() {
        pass_expr(counts, expr)?;
    }
    Ok(())
}

#[cycle(pass_expr)]
fn pass_clause(counts: &mut Vec<u32>, clause: &Clause) -> Result<(), Memory>
    ensures { OnOk result (counts.new.items
        ≡ passed_clause counts.old.items (clause_syntax clause.now)) }
{
    pass_expr(counts, &clause.guard)?;
    pass_expr(counts, &clause.body)
}

#[cycle(pass_expr)]
fn pass_clauses(counts: &mut Vec<u32>, clauses: &Items<Clause>) -> Result<(), Memory>
    ensures { OnOk result (counts.new.items
        ≡ passed_clauses counts.old.items (clauses_of (map clause_syntax clauses.now))) }
{
    for clause in clauses.as_slice() {
        pass_clause(counts, clause)?;
    }
    Ok(())
}

// The place of a function's count is kept before those of the functions in it.
#[cycle(pass_expr)]
fn pass_definition(counts: &mut Vec<u32>, function: &Function) -> Result<(), Memory>
    ensures { OnOk result (counts.new.items
        ≡ passed_definition counts.old.items (function_syntax function.now)) }
{
    let place = counts.len();
    counts.push(0)?;
    pass_expr(counts, &function.body)?;
    finish(counts, place)
}

#[cycle(pass_expr)]
fn pass_definitions(counts: &mut Vec<u32>, functions: &Items<Function>) -> Result<(), Memory>
    ensures { OnOk result (counts.new.items ≡ passed_definitions counts.old.items
        (definitions_of (map function_syntax functions.now))) }
{
    for function in functions.as_slice() {
        pass_definition(counts, function)?;
    }
    Ok(())
}

/// Puts the counts of the functions of a module behind others.
pub fn pass_functions_of_module(counts: &mut Vec<u32>, functions: &[Function]) -> Result<(), Memory>
    ensures { OnOk result (counts.new.items ≡ passed_functions counts.old.items functions.now) }
{
    for function in functions {
        pass_expr(counts, &function.body)?;
    }
    Ok(())
}
