ghost use Rattle.std.specs.Prelude.{◌≡◌, IfOk};
ghost use Rattle.hy_core.specs.NodeFaults.{gives as values_of};
ghost use Rattle.hy_core.specs.declared.tree.Expr.TheViews.{out-Expr};
ghost use Rattle.core_walk.specs.First.{IsFaultOf, IsFirst};
ghost use Rattle.core_lint.specs.code.WrongValues.{all_have as all_have_patterns, differs as is_different, valued, wrong_patterns as are_patterns_wrong};

use crate::on_exprs::{ExprCheck, first_in_exprs};
use core_names::is_match_fail;
use core_walk::{Demand, Position, form_of, needs_of_case};
use hy_core::{Clause, Expr, Form, LintFault, Module, Program};
use hy_terms::Memory;
use std::alloc::Global;

/// Numbers of values that don't fit their places.
struct Valued;

// How many values an expression gives by itself.
fn gives(names: &Module, expr: &Expr) -> Option<usize>
    ensures { result ≡ values_of names.now expr.now }
{
    match expr {
        Expr::Values(parts) => Some(parts.len()),
        Expr::Let { .. }
        | Expr::Do { .. }
        | Expr::Case { .. }
        | Expr::Letrec { .. }
        | Expr::Receive { .. }
        | Expr::Try { .. } => None,
        Expr::Primop { name, args } => {
            if is_match_fail(names, *name, args.len()) {
                None
            } else {
                Some(1)
            }
        }
        _ => Some(1),
    }
}

fn differs(gives: Option<usize>, needs: usize) -> bool
    ensures { result ≡ is_different gives needs }
{
    match gives {
        Some(n) => n != needs,
        None => false,
    }
}

// Whether each clause has so many patterns.
fn all_have(count: usize, clauses: &[Clause]) -> bool
    ensures { result ≡ all_have_patterns count clauses.now }
{
    for clause in clauses {
        if clause.patterns.len() != count {
            return false;
        }
    }
    true
}

// Whether the clauses of a `case` or a `receive` have other numbers of patterns than they have to.
fn wrong_patterns(expr: &Expr) -> bool
    ensures { result ≡ are_patterns_wrong (out-Expr expr.now) }
{
    match expr {
        Expr::Case { value: _, clauses } => {
            let clauses = clauses.as_slice();
            !all_have(needs_of_case(clauses), clauses)
        }
        Expr::Receive {
            clauses,
            timeout: _,
            body: _,
        } => !all_have(1, clauses.as_slice()),
        _ => false,
    }
}

impl ExprCheck for Valued {
    ghost expr_forms = { λ _. valued.of_expr };

    fn fault(
        &self,
        names: &Module,
        expr: &Expr,
        _at: &Position,
        demand: Demand,
    ) -> Result<Option<Form>, Memory> {
        let fails = differs(gives(names, expr), demand.needs) || wrong_patterns(expr);
        Ok(form_of(fails))
    }
}

/// The first fault of kind 8: a number of values that its place doesn't need.
pub fn wrong_values(alloc: Global, program: &Program) -> Result<Option<LintFault>, Memory>
    ensures { IfOk result (IsFirst (IsFaultOf program.now 8)) }
{
    first_in_exprs(alloc, &Valued, 8, program)
}
