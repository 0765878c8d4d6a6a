ghost use Rattle.std.specs.Prelude.{◌≡◌, IfOk};
ghost use Rattle.core_walk.specs.First.{IsFaultOf, IsFirst};
ghost use Rattle.core_lint.specs.code.RepeatedVariables.{repeated, repeats as are_repeated, repeats_parameter as are_parameters_repeated};

use core_walk::{Check, Demand, Position, first_in_program, form_of, push_variables};
use hy_core::{Expr, Form, Function, LintFault, Module, Pattern, Program};
use hy_terms::Memory;
use indexmap::IndexSet;
use std::alloc::Global;

/// Variables that are bound twice at once.
#[derive(Drop)]
struct Repeated {
    alloc: Global,
}

// Whether one of these variables stands twice among them.
fn repeats(alloc: Global, variables: &[u32]) -> Result<bool, Memory>
    ensures { IfOk result (λ found. found ≡ are_repeated variables.now) }
{
    let mut seen = IndexSet::new(alloc);
    for variable in variables {
        if !seen.insert(*variable)? {
            return Ok(true);
        }
    }
    Ok(false)
}

// Whether a definition has a parameter twice.
fn repeats_parameter(alloc: Global, functions: &[Function]) -> Result<bool, Memory>
    ensures { IfOk result (λ found. found ≡ are_parameters_repeated functions.now) }
{
    for function in functions {
        if repeats(alloc, function.params.as_slice())? {
            return Ok(true);
        }
    }
    Ok(false)
}

impl Check for Repeated {
    ghost forms = { λ _. repeated };

    fn expr_fault(
        &self,
        _names: &Module,
        expr: &Expr,
        _at: &Position,
        _demand: Demand,
    ) -> Result<Option<Form>, Memory> {
        let fails = match expr {
            Expr::Let {
                vars,
                value: _,
                body: _,
            } => repeats(self.alloc, vars.as_slice())?,
            Expr::Letrec { functions, body: _ } => {
                repeats_parameter(self.alloc, functions.as_slice())?
            }
            Expr::Try {
                value: _,
                vars,
                body: _,
                catch_vars,
                catch_body: _,
            } => {
                repeats(self.alloc, vars.as_slice())? || repeats(self.alloc, catch_vars.as_slice())?
            }
            Expr::Fun { params, body: _ } => repeats(self.alloc, params.as_slice())?,
            _ => false,
        };
        Ok(form_of(fails))
    }

    fn patterns_fault(&self, patterns: &[Pattern]) -> Result<Option<Form>, Memory> {
        let mut variables = Vec::new(self.alloc);
        push_variables(&mut variables, patterns)?;
        Ok(form_of(repeats(self.alloc, variables.as_slice())?))
    }

    fn function_fault(
        &self,
        _names: &Module,
        _place: usize,
        function: &Function,
    ) -> Result<bool, Memory> {
        repeats(self.alloc, function.params.as_slice())
    }
}

/// The first fault of kind 5: a variable that is bound twice at once.
pub fn repeated_variable(alloc: Global, program: &Program) -> Result<Option<LintFault>, Memory>
    ensures { IfOk result (IsFirst (IsFaultOf program.now 5)) }
{
    first_in_program(alloc, &Repeated { alloc }, 5, program.given.as_slice())
}
