ghost use Rattle.std.specs.Prelude.{IfOk};
ghost use Rattle.core_walk.specs.First.{IsFaultOf, IsFirst};
ghost use Rattle.core_lint.specs.code.UnboundVariables.{unbound};

use crate::on_exprs::{ExprCheck, first_in_exprs};
use core_walk::{Demand, Position};
use hy_core::{Expr, Form, LintFault, Module, Program};
use hy_terms::Memory;
use std::alloc::Global;

/// Variables that aren't bound.
struct Unbound;

impl ExprCheck for Unbound {
    ghost expr_forms = { λ _. unbound.of_expr };

    fn fault(
        &self,
        _names: &Module,
        expr: &Expr,
        at: &Position,
        _demand: Demand,
    ) -> Result<Option<Form>, Memory> {
        if let Expr::Var(variable) = expr
            && !at.scope.contains(*variable)
        {
            return Ok(Some(Form::Absent));
        }
        Ok(None)
    }
}

/// The first fault of kind 4: a variable that isn't bound.
pub fn unbound_variable(alloc: Global, program: &Program) -> Result<Option<LintFault>, Memory>
    ensures { IfOk result (IsFirst (IsFaultOf program.now 4)) }
{
    first_in_exprs(alloc, &Unbound, 4, program)
}
