ghost use Rattle.std.specs.Prelude.{◌≡◌, ◌↔◌, IsTrue, map, length};
ghost use Rattle.hy_ir.specs.Checking.{arms_checked, code_checked, function_checked};
ghost use Rattle.hy_ir.specs.Checking.{functions_checked, gives_so_many, lapse_checked};
ghost use Rattle.hy_ir.specs.Checking.{last_checked, part_checked, parts_checked};
ghost use Rattle.hy_ir.specs.Checking.{sites_checked, tree_checked};
ghost use Rattle.hy_ir.specs.Valid.{IsValid};
ghost use Rattle.hy_ir.specs.View.{arm_of, arms_in, code_of, function_of};
ghost use Rattle.hy_ir.specs.View.{last_of, part_of, parts_in, tree_of};

use crate::code::{Arm, Code, CodeFunction, Last, Part, Tree};
use crate::operations::{
    are_registers, are_valid_tests, is_valid_guard, is_valid_operation, takes,
};
use hy_core::SiteInfo;

// The most functions of a code, and its most sites.
const MOST_FUNCTIONS: usize = 65_535;

const MOST_SITES: usize = 1_048_576;

// An inner tree gives as many values as its part says, and a function's body one.
fn gives(inner: Option<usize>, values: usize) -> bool
    ensures { result ≡ gives_so_many inner values }
{
    match inner {
        Some(outs) => values == outs,
        None => values == 1,
    }
}

#[cycle(valid)]
fn is_valid_tree(code: &Code, registers: u32, inner: Option<usize>, tree: &Tree) -> bool
    ensures { result ≡ tree_checked (code_of code.now) registers inner (tree_of tree.now) }
{
    are_valid_parts(code, registers, tree.parts.as_slice())
        && is_valid_last(code, registers, inner, &tree.last)
}

#[cycle(valid)]
fn are_valid_parts(code: &Code, registers: u32, parts: &[Part]) -> bool
    ensures { result ≡
        parts_checked (code_of code.now) registers (parts_in (map part_of parts.now)) }
{
    for part in parts {
        if !is_valid_part(code, registers, part) {
            return false;
        }
    }
    true
}

#[cycle(valid)]
fn is_valid_part(code: &Code, registers: u32, part: &Part) -> bool
    ensures { result ≡ part_checked (code_of code.now) registers (part_of part.now) }
{
    match part {
        Part::Do(operation) => is_valid_operation(code, registers, operation),
        Part::Within { outs, inner } => {
            are_registers(outs.as_slice(), registers)
                && is_valid_tree(code, registers, Some(outs.len()), inner)
        }
    }
}

#[cycle(valid)]
fn is_valid_last(code: &Code, registers: u32, inner: Option<usize>, last: &Last) -> bool
    ensures { result ≡ last_checked (code_of code.now) registers inner (last_of last.now) }
{
    match last {
        Last::Give(list) => {
            are_registers(list.as_slice(), registers) && gives(inner, list.len())
        }
        Last::Tail { function, args } => {
            inner.is_none()
                && are_registers(args.as_slice(), registers)
                && takes(code, *function, args.len())
        }
        Last::Raise { reason, .. } => *reason < registers,
        Last::Fail { reason } => *reason < registers,
        Last::Choose { arms } => are_valid_arms(code, registers, inner, arms.as_slice()),
        Last::Receive {
            message,
            arms,
            lapse,
        } => {
            *message < registers
                && are_valid_arms(code, registers, inner, arms.as_slice())
                && match lapse {
                    Some(tree) => is_valid_tree(code, registers, inner, tree.get()),
                    None => true,
                }
        }
    }
}

#[cycle(valid)]
fn are_valid_arms(code: &Code, registers: u32, inner: Option<usize>, arms: &[Arm]) -> bool
    ensures { result ≡
        arms_checked (code_of code.now) registers inner (arms_in (map arm_of arms.now)) }
{
    for arm in arms {
        let accepts = are_valid_tests(code, registers, arm.tests.as_slice())
            && is_valid_guard(code, registers, &arm.guard);
        if !accepts || !is_valid_tree(code, registers, inner, &arm.body) {
            return false;
        }
    }
    true
}

fn is_valid_function(code: &Code, function: &CodeFunction) -> bool
    ensures { result ≡ function_checked (code_of code.now) (function_of function.now) }
{
    function.params <= function.registers
        && is_valid_tree(code, function.registers, None, &function.body)
}

fn are_valid_functions(code: &Code, functions: &[CodeFunction]) -> bool
    ensures { result ≡ functions_checked (code_of code.now) (map function_of functions.now) }
{
    for function in functions {
        if !is_valid_function(code, function) {
            return false;
        }
    }
    true
}

fn are_valid_sites(sites: &[SiteInfo], functions: usize) -> bool
    ensures { result ≡ sites_checked functions sites.now }
{
    for site in sites {
        if site.function as usize >= functions {
            return false;
        }
    }
    true
}

fn is_valid_code(code: &Code) -> bool
    ensures { result ≡ code_checked (code_of code.now) }
{
    let functions = code.functions.len();
    functions <= MOST_FUNCTIONS
        && code.sites.len() <= MOST_SITES
        && code.names.len() == functions
        && are_valid_sites(code.sites.as_slice(), functions)
        && are_valid_functions(code, code.functions.as_slice())
}

/// Whether an engine can carry out the code without a look at what it names: each register,
/// function and site is there, numbers of arguments, parts and values are right, and no tail call
/// stands in an inner tree. It takes no memory and time linear in the size of the code, and its
/// recursion is as deep as the code is nested.
pub fn validate(code: &Code) -> bool
    ensures { IsTrue result ↔ IsValid (code_of code.now) }
{
    is_valid_code(code)
}
