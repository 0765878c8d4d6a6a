ghost use Rattle.std.specs.Prelude.{◌≡◌, IfOk};
ghost use Rattle.core_walk.specs.First.{IsFaultOf, IsFirst};
ghost use Rattle.core_lint.specs.code.RepeatedFunctions.{first_undefined as first_of_exports, first_undefined_export as first_of_modules};

use core_walk::{FunctionNames, number};
use hy_core::{Form, LintFault, Module, Program};
use hy_terms::Memory;
use std::alloc::Global;

// The place of the first export that the module doesn't define.
fn first_undefined(alloc: Global, names: &Module) -> Result<Option<usize>, Memory>
    ensures { IfOk result (λ place. place ≡ first_of_exports names.now) }
{
    let mut defined = FunctionNames::new(alloc);
    defined.define(names.functions.as_slice())?;
    for (k, export) in names.exports.as_slice().iter().enumerate() {
        if !defined.contains(*export) {
            return Ok(Some(k));
        }
    }
    Ok(None)
}

fn first_in_modules(alloc: Global, modules: &[Module]) -> Result<Option<LintFault>, Memory>
    ensures { IfOk result (λ fault. fault ≡ first_of_modules 0 modules.now) }
{
    for (i, names) in modules.iter().enumerate() {
        if let Some(k) = first_undefined(alloc, names)? {
            return Ok(Some(LintFault {
                kind: 3,
                module: number(i)?,
                function: 0,
                node: number(k)?,
                form: Form::Absent,
            }));
        }
    }
    Ok(None)
}

/// The first fault of kind 3: an export without a definition.
pub fn undefined_export(alloc: Global, program: &Program) -> Result<Option<LintFault>, Memory>
    ensures { IfOk result (IsFirst (IsFaultOf program.now 3)) }
{
    first_in_modules(alloc, program.given.as_slice())
}
