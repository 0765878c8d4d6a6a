ghost use Rattle.std.specs.Prelude.{◌≡◌, map, IfOk, OnOk};
ghost use Rattle.hy_core.specs.Syntax.{clauses_of, definitions_of, syntax_of, syntaxes_of};
ghost use Rattle.lifted_functions.specs.code.Lifting.{
  lifted_all_by,
  lifted_by,
  lifted_clause_by,
  lifted_clauses_by,
  next_all,
  next_by,
  next_clause,
  next_clauses,
  number_behind,
};
ghost use Rattle.letrec_names.specs.Parts.{clause_syntax, function_syntax};

use crate::calls::lifted_call;
use crate::copies::{copied_boxed, copied_expr, copied_patterns, copied_variables};
use crate::tables::Tables;
use hy_core::{Clause, Expr, Function};
use hy_terms::Memory;
use letrec_names::{LetrecNames, NestedCounts};
use sqlite_items::{Boxed, Items};

// The number behind the functions of a letrec, of which the first has this number.
fn behind(counts: &NestedCounts, first: u32, functions: &[Function]) -> Result<u32, Memory>
    ensures { IfOk result (λ next. next
        ≡ number_behind counts.now first (definitions_of (map function_syntax functions.now))) }
{
    let mut next = first;
    for _ in functions {
        let last = next.checked_add(counts.within(next)).ok_or(Memory)?;
        next = last.checked_add(1).ok_or(Memory)?;
    }
    Ok(next)
}

/// An expression of a function of this module with its letrecs lifted. `next` is the number of the
/// first function of a letrec in it, and comes out as the one behind it.
#[cycle(lift)]
pub fn lift_expr(
    tables: &Tables,
    current: u32,
    reach: &mut LetrecNames,
    next: &mut u32,
    expr: &Expr,
) -> Result<Expr, Memory>
    ensures lifted { IfOk result (λ tree. syntax_of tree
        ≡ lifted_by tables.now current reach.old next.old (syntax_of expr.now)) }
    ensures next { OnOk result
        (next.new ≡ next_by tables.now.counts next.old (syntax_of expr.now)) }
    ensures reach { OnOk result (reach.new ≡ reach.old) }
{
    let alloc = tables.alloc;
    match expr {
        Expr::Int(_)
        | Expr::Atom(_)
        | Expr::Nil
        | Expr::Str(_)
        | Expr::Var(_)
        | Expr::Name(_)
        | Expr::Catch(_)
        | Expr::Fun { params: _, body: _ } => copied_expr(alloc, expr),
        Expr::Tuple { site, parts } => {
            let parts = lift_each(tables, current, reach, next, parts)?;
            Ok(Expr::Tuple { site: *site, parts })
        }
        Expr::List { site, heads, tail } => {
            let heads = lift_each(tables, current, reach, next, heads)?;
            let tail = lift_boxed(tables, current, reach, next, tail)?;
            Ok(Expr::List {
                site: *site,
                heads,
                tail,
            })
        }
        Expr::Values(parts) => {
            let parts = lift_each(tables, current, reach, next, parts)?;
            Ok(Expr::Values(parts))
        }
        Expr::Let { vars, value, body } => {
            let vars = copied_variables(alloc, vars)?;
            let value = lift_boxed(tables, current, reach, next, value)?;
            let body = lift_boxed(tables, current, reach, next, body)?;
            Ok(Expr::Let { vars, value, body })
        }
        Expr::Do { first, second } => {
            let first = lift_boxed(tables, current, reach, next, first)?;
            let second = lift_boxed(tables, current, reach, next, second)?;
            Ok(Expr::Do { first, second })
        }
        Expr::Case { value, clauses } => {
            let value = lift_boxed(tables, current, reach, next, value)?;
            let clauses = lift_clauses(tables, current, reach, next, clauses)?;
            Ok(Expr::Case { value, clauses })
        }
        Expr::Letrec { functions, body } => {
            let height = reach.height();
            let functions = functions.as_slice();
            reach.enter_functions(&tables.counts, *next, functions)?;
            *next = behind(&tables.counts, *next, functions)?;
            let tree = lift_expr(tables, current, reach, next, body.get())?;
            reach.back_to(height);
            Ok(tree)
        }
        Expr::Apply { what, args } => {
            let args = lift_each(tables, current, reach, next, args)?;
            match what.get() {
                Expr::Name(name) => lifted_call(tables, current, reach, *name, args),
                _ => copied_expr(alloc, expr),
            }
        }
        Expr::Call { module, name, args } => {
            let module = copied_boxed(alloc, module)?;
            let name = copied_boxed(alloc, name)?;
            let args = lift_each(tables, current, reach, next, args)?;
            Ok(Expr::Call { module, name, args })
        }
        Expr::Primop { name, args } => {
            let args = lift_each(tables, current, reach, next, args)?;
            Ok(Expr::Primop { name: *name, args })
        }
        Expr::Receive {
            clauses,
            timeout,
            body,
        } => {
            let clauses = lift_clauses(tables, current, reach, next, clauses)?;
            let timeout = copied_boxed(alloc, timeout)?;
            let body = lift_boxed(tables, current, reach, next, body)?;
            Ok(Expr::Receive {
                clauses,
                timeout,
                body,
            })
        }
        // The guard form, which stands for its first part.
        Expr::Try {
            value,
            vars,
            body,
            catch_vars,
            catch_body,
        } => {
            let value = lift_boxed(tables, current, reach, next, value)?;
            let vars = copied_variables(alloc, vars)?;
            let body = copied_boxed(alloc, body)?;
            let catch_vars = copied_variables(alloc, catch_vars)?;
            let catch_body = copied_boxed(alloc, catch_body)?;
            Ok(Expr::Try {
                value,
                vars,
                body,
                catch_vars,
                catch_body,
            })
        }
    }
}

// An expression inside another one.
#[cycle(lift)]
fn lift_boxed(
    tables: &Tables,
    current: u32,
    reach: &mut LetrecNames,
    next: &mut u32,
    expr: &Boxed<Expr>,
) -> Result<Boxed<Expr>, Memory>
    ensures lifted { IfOk result (λ tree. syntax_of tree
        ≡ lifted_by tables.now current reach.old next.old (syntax_of expr.now)) }
    ensures next { OnOk result
        (next.new ≡ next_by tables.now.counts next.old (syntax_of expr.now)) }
    ensures reach { OnOk result (reach.new ≡ reach.old) }
{
    let tree = lift_expr(tables, current, reach, next, expr.get())?;
    Ok(Boxed::new(tables.alloc, tree)?)
}

// Expressions one after another.
#[cycle(lift)]
fn lift_each(
    tables: &Tables,
    current: u32,
    reach: &mut LetrecNames,
    next: &mut u32,
    exprs: &Items<Expr>,
) -> Result<Items<Expr>, Memory>
    ensures lifted { IfOk result (λ trees. syntaxes_of (map syntax_of trees) ≡ lifted_all_by
        tables.now current reach.old next.old (syntaxes_of (map syntax_of exprs.now))) }
    ensures next { OnOk result (next.new
        ≡ next_all tables.now.counts next.old (syntaxes_of (map syntax_of exprs.now))) }
    ensures reach { OnOk result (reach.new ≡ reach.old) }
{
    let mut trees = Items::new(tables.alloc);
    for expr in exprs.as_slice() {
        trees.push(lift_expr(tables, current, reach, next, expr)?)?;
    }
    Ok(trees)
}

// A clause: its guard, and then its body.
#[cycle(lift)]
fn lift_clause(
    tables: &Tables,
    current: u32,
    reach: &mut LetrecNames,
    next: &mut u32,
    clause: &Clause,
) -> Result<Clause, Memory>
    ensures lifted { IfOk result (λ lifted. clause_syntax lifted
        ≡ lifted_clause_by tables.now current reach.old next.old (clause_syntax clause.now)) }
    ensures next { OnOk result (next.new
        ≡ next_clause tables.now.counts next.old (clause_syntax clause.now)) }
    ensures reach { OnOk result (reach.new ≡ reach.old) }
{
    let patterns = copied_patterns(tables.alloc, &clause.patterns)?;
    let guard = lift_expr(tables, current, reach, next, &clause.guard)?;
    let body = lift_expr(tables, current, reach, next, &clause.body)?;
    Ok(Clause {
        patterns,
        guard,
        body,
    })
}

// Clauses one after another.
#[cycle(lift)]
fn lift_clauses(
    tables: &Tables,
    current: u32,
    reach: &mut LetrecNames,
    next: &mut u32,
    clauses: &Items<Clause>,
) -> Result<Items<Clause>, Memory>
    ensures lifted { IfOk result (λ lifted. clauses_of (map clause_syntax lifted)
        ≡ lifted_clauses_by tables.now current reach.old next.old
        (clauses_of (map clause_syntax clauses.now))) }
    ensures next { OnOk result (next.new
        ≡ next_clauses tables.now.counts next.old (clauses_of (map clause_syntax clauses.now))) }
    ensures reach { OnOk result (reach.new ≡ reach.old) }
{
    let mut lifted = Items::new(tables.alloc);
    for clause in clauses.as_slice() {
        lifted.push(lift_clause(tables, current, reach, next, clause)?)?;
    }
    Ok(lifted)
}
