ghost use Rattle.std.specs.Prelude.{◌≡◌, IfOk};
ghost use Rattle.hy_core.specs.declared.tree.Expr.TheViews.{out-Expr};
ghost use Rattle.core_walk.specs.First.{IsFaultOf, IsFirst};
ghost use Rattle.core_lint.specs.code.Guards.{guarded, is_allowed as may_be_held, is_plain as is_built_in_plain};

use crate::guard_form::{has_guard_form, is_whole_guard};
use crate::on_exprs::{ExprCheck, first_in_exprs};
use core_names::{BuiltIn, called};
use core_walk::{Demand, Position, form_of};
use hy_core::{Expr, Form, LintFault, Module, Place, Program};
use hy_terms::Memory;
use std::alloc::Global;

/// Forms that a guard may not hold.
struct Guarded;

fn is_plain(built_in: Option<BuiltIn>) -> bool
    ensures { result ≡ is_built_in_plain built_in }
{
    match built_in {
        Some(BuiltIn::Plain(_)) => true,
        _ => false,
    }
}

// Whether a guard may hold an expression at such a place.
fn is_allowed(names: &Module, place: Place, expr: &Expr) -> bool
    ensures { result ≡ may_be_held names.now place (out-Expr expr.now) }
{
    match expr {
        Expr::Int(_) | Expr::Atom(_) | Expr::Nil | Expr::Var(_) | Expr::Let { .. } => true,
        Expr::Call { module, name, args } => {
            is_plain(called(&names.atoms, module.get(), name.get(), args.len()))
        }
        Expr::Try {
            value: _,
            vars,
            body,
            catch_vars,
            catch_body,
        } => {
            is_whole_guard(place)
                && has_guard_form(
                    names,
                    vars.as_slice(),
                    body.get(),
                    catch_vars.as_slice(),
                    catch_body.get(),
                )
        }
        _ => false,
    }
}

impl ExprCheck for Guarded {
    ghost expr_forms = { λ _. guarded.of_expr };

    fn fault(
        &self,
        names: &Module,
        expr: &Expr,
        _at: &Position,
        demand: Demand,
    ) -> Result<Option<Form>, Memory> {
        let fails = demand.in_guard && !is_allowed(names, demand.place, expr);
        Ok(form_of(fails))
    }
}

/// The first fault of kind 9: a form that a guard may not hold.
pub fn forbidden_in_guard(alloc: Global, program: &Program) -> Result<Option<LintFault>, Memory>
    ensures { IfOk result (IsFirst (IsFaultOf program.now 9)) }
{
    first_in_exprs(alloc, &Guarded, 9, program)
}
