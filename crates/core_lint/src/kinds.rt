ghost use Rattle.std.specs.Prelude.{◌≤◌, IfOk, MatchOption};
ghost use Rattle.hy_core.specs.Faults.{IsLeastFault};
ghost use Rattle.core_walk.specs.First.{IsFaultOf, IsFirst};
ghost use Rattle.core_lint.specs.code.InOrder.{HasNoneBelow};

use crate::forbidden_forms::forbidden_form;
use crate::guards::forbidden_in_guard;
use crate::missing_functions::missing_function;
use crate::repeated_functions::repeated_function;
use crate::repeated_modules::repeated_module;
use crate::repeated_variables::repeated_variable;
use crate::unbound_variables::unbound_variable;
use crate::undefined_exports::undefined_export;
use crate::wrong_values::wrong_values;
use hy_core::{LintFault, Program};
use hy_terms::Memory;
use std::alloc::Global;

// The kinds before that of sizes.
const KINDS: u8 = 9;

// The first fault of a kind.
fn first_of_kind(alloc: Global, program: &Program, kind: u8) -> Result<Option<LintFault>, Memory>
    requires least { 1 ≤ kind }
    requires greatest { kind ≤ 9 }
    ensures { IfOk result (IsFirst (IsFaultOf program.now kind)) }
{
    match kind {
        1 => repeated_module(program),
        2 => repeated_function(alloc, program),
        3 => undefined_export(alloc, program),
        4 => unbound_variable(alloc, program),
        5 => repeated_variable(alloc, program),
        6 => missing_function(alloc, program),
        7 => forbidden_form(alloc, program),
        8 => wrong_values(alloc, program),
        _ => forbidden_in_guard(alloc, program),
    }
}

/// The least fault of a program, sizes that are too great aside.
pub fn first_in_kinds(alloc: Global, program: &Program) -> Result<Option<LintFault>, Memory>
    ensures { IfOk result (λ found. MatchOption found (HasNoneBelow program.now 10)
        (IsLeastFault program.now)) }
{
    for kind in 1..=KINDS {
        let found = first_of_kind(alloc, program, kind)?;
        if found.is_some() {
            return Ok(found);
        }
    }
    Ok(None)
}
