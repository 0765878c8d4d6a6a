ghost use Rattle.std.specs.Prelude.{IfOk};
ghost use Rattle.core_walk.specs.First.{IsFaultOf, IsFirst};

use crate::earlier::earlier;
use crate::missing_main::missing_main;
use crate::unknown_functions::unknown_function;
use hy_core::{LintFault, Program};
use hy_terms::Memory;
use std::alloc::Global;

/// The first fault of kind 6: a function that isn't there, or is there with another number of
/// arguments or parameters; or a first module that doesn't export `'main'/0`.
pub fn missing_function(alloc: Global, program: &Program) -> Result<Option<LintFault>, Memory>
    ensures { IfOk result (IsFirst (IsFaultOf program.now 6)) }
{
    let unknown = unknown_function(alloc, program)?;
    let main = missing_main(program)?;
    Ok(earlier(unknown, main))
}
