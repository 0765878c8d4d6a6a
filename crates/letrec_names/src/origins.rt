ghost use Rattle.std.specs.Prelude.{◌≡◌, ◌+◌, ◌++◌, length, replicate, IfOk, OnOk};
ghost use Rattle.hy_core.specs.Syntax.{syntax_of};
ghost use Rattle.lifted_syntax.specs.LiftedSyntax.{count};
ghost use Rattle.letrec_names.specs.Origins.{function_origins, functions_origins, modules_origins, upwards};

use crate::counts::count_functions;
use crate::expressions::pass_expr;
use hy_core::{Expr, Function, Module};
use hy_terms::Memory;
use std::alloc::Global;

// The origins of functions of modules: each its own number.
fn own_numbers(alloc: Global, many: u32) -> Result<Vec<u32>, Memory>
    ensures { IfOk result (λ origins. origins.items ≡ upwards 0 many) }
{
    let mut origins = Vec::new(alloc);
    for number in 0..many {
        origins.push(number)?;
    }
    Ok(origins)
}

// Puts this origin behind others, once for each function of a letrec in a body.
fn give_origin(
    alloc: Global,
    origins: &mut Vec<u32>,
    number: u32,
    body: &Expr,
) -> Result<(), Memory>
    ensures { OnOk result (origins.new.items
        ≡ origins.old.items ++ replicate (count (syntax_of body.now)) number) }
{
    let mut counts = Vec::new(alloc);
    pass_expr(&mut counts, body)?;
    for _ in 0..counts.len() {
        origins.push(number)?;
    }
    Ok(())
}

// Puts the origins in the functions of a module behind others; the first of them has this number.
fn give_origins(
    alloc: Global,
    origins: &mut Vec<u32>,
    number: &mut u32,
    functions: &[Function],
) -> Result<(), Memory>
    ensures origins { OnOk result (origins.new.items
        ≡ origins.old.items ++ functions_origins number.old functions.now) }
    ensures number { OnOk result (number.new ≡ number.old + length functions.now) }
{
    for function in functions {
        give_origin(alloc, origins, *number, &function.body)?;
        *number = number.checked_add(1).ok_or(Memory)?;
    }
    Ok(())
}

/// The origin of each function of a program by its number: that of a function of a module is its
/// own number, and that of a function of a letrec the number of the function of a module around it.
/// `Memory` for want of memory, or where a number passes its type.
pub fn function_origins(alloc: Global, modules: &[Module]) -> Result<Vec<u32>, Memory>
    ensures { IfOk result (λ origins. origins.items ≡ function_origins modules.now) }
{
    let mut origins = own_numbers(alloc, count_functions(modules)?)?;
    let mut number = 0;
    for names in modules {
        give_origins(alloc, &mut origins, &mut number, names.functions.as_slice())?;
    }
    Ok(origins)
}
