ghost use Rattle.std.specs.Prelude.{◌≡◌, IfOk};
ghost use Rattle.core_walk.specs.First.{first_in_modules};
ghost use Rattle.core_walk.specs.Walk.{context_of};
ghost use Rattle.core_lint.specs.code.OnExprs.{ExprForms, on_exprs};

use core_walk::{Check, Demand, Position, first_in_program};
use hy_core::{Expr, Form, Function, LintFault, Module, Pattern, Program};
use hy_terms::Memory;
use std::alloc::Global;

/// A kind of fault that expressions alone have.
pub trait ExprCheck {
    ghost expr_forms: { Self → ExprForms };

    /// The form of the fault of an expression, where it has one.
    fn fault(
        &self,
        names: &Module,
        expr: &Expr,
        at: &Position,
        demand: Demand,
    ) -> Result<Option<Form>, Memory>
        ensures { IfOk result (λ form.
            form ≡ expr_forms self.now names.now expr.now (context_of at.now demand)) };
}

/// A check of expressions among those of functions and nodes.
#[derive(Drop)]
struct OnExprs<'a, C> {
    check: &'a C,
}

impl<'a, C: ExprCheck> Check for OnExprs<'a, C> {
    ghost forms = { λ on. on_exprs (C.expr_forms on.check.now) };

    fn expr_fault(
        &self,
        names: &Module,
        expr: &Expr,
        at: &Position,
        demand: Demand,
    ) -> Result<Option<Form>, Memory> {
        self.check.fault(names, expr, at, demand)
    }

    fn patterns_fault(&self, _patterns: &[Pattern]) -> Result<Option<Form>, Memory> {
        Ok(None)
    }

    fn function_fault(
        &self,
        _names: &Module,
        _place: usize,
        _function: &Function,
    ) -> Result<bool, Memory> {
        Ok(false)
    }
}

/// The first fault of this kind in the given modules of a program.
pub fn first_in_exprs<C: ExprCheck>(
    alloc: Global,
    check: &C,
    kind: u8,
    program: &Program,
) -> Result<Option<LintFault>, Memory>
    ensures { IfOk result (λ fault.
        fault ≡ first_in_modules (on_exprs (C.expr_forms check.now)) kind 0 program.now.given) }
{
    first_in_program(alloc, &OnExprs { check }, kind, program.given.as_slice())
}
