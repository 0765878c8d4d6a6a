ghost use Rattle.std.specs.Prelude.{◌≡◌, ℕ, IfOk, OnOk};
ghost use Rattle.hy_core.specs.Resolve.{function_number};
ghost use Rattle.hy_core.specs.declared.tree.FunName.{FunName as AnyName};
ghost use Rattle.lifted_functions.specs.code.FunctionNumbers.{
  first_of,
  key_of as key_for,
  number_at,
  number_if,
};

use hy_core::{FunInfo, FunName};
use hy_terms::Memory;
use indexmap::IndexMap;
use std::alloc::Global;

// A function as a key: its module, and its own name.
fn key_of(current: u32, name: FunName) -> (u32, u32, u32)
    ensures { result ≡ key_for current name }
{
    (current, name.name, name.arity)
}

/// The number of the function of a module.
pub fn number_of(
    numbers: &IndexMap<(u32, u32, u32), u32>,
    current: u32,
    name: FunName,
) -> Option<u32>
    ensures { result ≡ number_at numbers.now current name }
{
    match numbers.get(&key_of(current, name)) {
        Some(number) => Some(*number),
        None => None,
    }
}

// Notes the number of a function, where the name has none yet.
fn note(
    numbers: &mut IndexMap<(u32, u32, u32), u32>,
    function: &FunInfo,
    number: u32,
) -> Result<(), Memory>
    ensures { OnOk result ((m : ℕ) (f : AnyName) → number_at numbers.new m f
        ≡ first_of (number_at numbers.old m f) (number_if number function.now m f)) }
{
    match number_of(numbers, function.module, function.name) {
        Some(_) => Ok(()),
        None => {
            numbers.insert(key_of(function.module, function.name), number)?;
            Ok(())
        }
    }
}

/// The numbers of the functions of a program, under their modules and names.
pub fn function_numbers(
    alloc: Global,
    functions: &[FunInfo],
) -> Result<IndexMap<(u32, u32, u32), u32>, Memory>
    ensures { IfOk result (λ numbers. (m : ℕ) (f : AnyName)
        → number_at numbers m f ≡ function_number functions.now m f) }
{
    let mut numbers = IndexMap::new(alloc);
    let mut number = 0u32;
    for function in functions {
        note(&mut numbers, function, number)?;
        number = number.checked_add(1).ok_or(Memory)?;
    }
    Ok(numbers)
}
