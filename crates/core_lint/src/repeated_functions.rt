ghost use Rattle.std.specs.Prelude.{◌≡◌, IfOk};
ghost use Rattle.core_walk.specs.First.{IsFaultOf, IsFirst};
ghost use Rattle.core_lint.specs.code.RepeatedFunctions.{first_again as first_of_names, first_repeated_function as first_of_functions, repeated_names};

use crate::earlier::earlier;
use crate::on_exprs::{ExprCheck, first_in_exprs};
use core_walk::{Demand, FunctionNames, Position, form_of, number};
use hy_core::{Expr, Form, Function, LintFault, Module, Program};
use hy_terms::Memory;
use std::alloc::Global;

/// Letrecs that define a name twice.
#[derive(Drop)]
struct RepeatedNames {
    alloc: Global,
}

// The place of the first function that has the name of one before it.
fn first_again(alloc: Global, functions: &[Function]) -> Result<Option<usize>, Memory>
    ensures { IfOk result (λ place. place ≡ first_of_names functions.now) }
{
    let mut names = FunctionNames::new(alloc);
    for (j, function) in functions.iter().enumerate() {
        if names.contains(function.name) {
            return Ok(Some(j));
        }
        names.push(function.name)?;
    }
    Ok(None)
}

// The first function of modules that has the name of an earlier one of its module.
fn first_function(alloc: Global, modules: &[Module]) -> Result<Option<LintFault>, Memory>
    ensures { IfOk result (λ fault. fault ≡ first_of_functions 0 modules.now) }
{
    for (i, names) in modules.iter().enumerate() {
        if let Some(j) = first_again(alloc, names.functions.as_slice())? {
            return Ok(Some(LintFault {
                kind: 2,
                module: number(i)?,
                function: number(j)?,
                node: 0,
                form: Form::Absent,
            }));
        }
    }
    Ok(None)
}

impl ExprCheck for RepeatedNames {
    ghost expr_forms = { λ _. repeated_names.of_expr };

    fn fault(
        &self,
        _names: &Module,
        expr: &Expr,
        _at: &Position,
        _demand: Demand,
    ) -> Result<Option<Form>, Memory> {
        if let Expr::Letrec { functions, body: _ } = expr {
            let again = first_again(self.alloc, functions.as_slice())?;
            return Ok(form_of(again.is_some()));
        }
        Ok(None)
    }
}

/// The first fault of kind 2: a function with the name and arity of an earlier one of its module
/// or of its letrec.
pub fn repeated_function(alloc: Global, program: &Program) -> Result<Option<LintFault>, Memory>
    ensures { IfOk result (IsFirst (IsFaultOf program.now 2)) }
{
    let function = first_function(alloc, program.given.as_slice())?;
    let definition = first_in_exprs(alloc, &RepeatedNames { alloc }, 2, program)?;
    Ok(earlier(function, definition))
}
