ghost use Rattle.std.specs.Prelude.{◌≡◌, IfOk};
ghost use Rattle.core_walk.specs.Walk.{Forms, context_of, form_if};

use crate::position::{Demand, Position};
use hy_core::{Expr, Form, Function, Module, Pattern};
use hy_terms::Memory;

/// A kind of fault of functions and nodes.
pub trait Check {
    ghost forms: { Self → Forms };

    /// The form of the fault of an expression, where it has one.
    fn expr_fault(
        &self,
        names: &Module,
        expr: &Expr,
        at: &Position,
        demand: Demand,
    ) -> Result<Option<Form>, Memory>
        ensures { IfOk result (λ form. form
            ≡ (forms self.now).of_expr names.now expr.now (context_of at.now demand)) };

    /// The form of the fault of the patterns of a clause, where they have one.
    fn patterns_fault(&self, patterns: &[Pattern]) -> Result<Option<Form>, Memory>
        ensures { IfOk result (λ form. form ≡ (forms self.now).of_patterns patterns.now) };

    /// Whether a function at a place of its module has the fault by itself.
    fn function_fault(
        &self,
        names: &Module,
        place: usize,
        function: &Function,
    ) -> Result<bool, Memory>
        ensures { IfOk result (λ fails. fails
            ≡ (forms self.now).of_function names.now place function.now) };
}

/// The form of a fault whose kind tells all.
pub fn form_of(fails: bool) -> Option<Form>
    ensures { result ≡ form_if fails }
{
    if fails { Some(Form::Absent) } else { None }
}
