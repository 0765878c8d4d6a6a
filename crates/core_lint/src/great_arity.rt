ghost use Rattle.std.specs.Prelude.{◌≡◌, ◌↔◌, IfOk, IsTrue};
ghost use Rattle.hy_core.specs.Faults.{IsTooGreat};
ghost use Rattle.hy_core.specs.declared.fault.Form.TheVariants.{Arity};
ghost use Rattle.core_lint.specs.code.GreatArity.{HasGreat, any_is_great as one_is_great, great, is_great as is_so_great};

use core_walk::{Check, Demand, Position, first_in_program, form_of};
use hy_core::{Expr, Form, Function, Module, Pattern, Program};
use hy_terms::Memory;
use std::alloc::Global;

// The greatest arity that a definition may have.
const GREATEST_ARITY: u32 = 255;

// The kind of fault of a size that is too great.
const TOO_GREAT: u8 = 10;

/// Definitions with too great an arity.
struct GreatArity;

fn is_great(function: &Function) -> bool
    ensures { result ≡ is_so_great function.now }
{
    function.name.arity > GREATEST_ARITY
}

fn any_is_great(functions: &[Function]) -> bool
    ensures { result ≡ one_is_great functions.now }
{
    for function in functions {
        if is_great(function) {
            return true;
        }
    }
    false
}

impl Check for GreatArity {
    ghost forms = { λ _. great };

    fn expr_fault(
        &self,
        _names: &Module,
        expr: &Expr,
        _at: &Position,
        _demand: Demand,
    ) -> Result<Option<Form>, Memory> {
        if let Expr::Letrec { functions, body: _ } = expr {
            return Ok(form_of(any_is_great(functions.as_slice())));
        }
        Ok(None)
    }

    fn patterns_fault(&self, _patterns: &[Pattern]) -> Result<Option<Form>, Memory> {
        Ok(None)
    }

    fn function_fault(
        &self,
        _names: &Module,
        _place: usize,
        function: &Function,
    ) -> Result<bool, Memory> {
        Ok(is_great(function))
    }
}

// Whether one of the modules has a definition with too great an arity.
fn has_great(alloc: Global, modules: &[Module]) -> Result<bool, Memory>
    ensures { IfOk result (λ found. IsTrue found ↔ HasGreat modules.now) }
{
    let fault = first_in_program(alloc, &GreatArity, TOO_GREAT, modules)?;
    Ok(fault.is_some())
}

/// Whether a definition of the program, those of letrecs and of the prelude included, has an arity
/// above 255.
pub fn has_great_arity(alloc: Global, program: &Program) -> Result<bool, Memory>
    ensures { IfOk result (λ great. IsTrue great ↔ IsTooGreat program.now Arity) }
{
    if has_great(alloc, program.given.as_slice())? {
        return Ok(true);
    }
    has_great(alloc, program.prelude.as_slice())
}
