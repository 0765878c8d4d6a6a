ghost use Rattle.std.specs.List.{AllByRecursion};
ghost use Rattle.std.specs.Prelude.{◌≡◌, IfOk, IfErr};
ghost use Rattle.hy_core.specs.Faults.{IsAccepted};
ghost use Rattle.hy_core.specs.Numbered.{numbered_program};
ghost use Rattle.hy_core.specs.PreludeModules.{with_prelude};
ghost use Rattle.core_lint.specs.Linted.{IsOfText};
ghost use Rattle.hybrid_run.specs.Headline.{StopsLinting};

use crate::fault::TopFault;
use core_lint::{LintAnswer, Linted, lint};
use core_prelude::prelude;
use hy_core::{Module, Program};
use hy_terms::Memory;
use sqlite_items::Items;
use std::alloc::Global;

/// The program of the modules of the files with its own numbers, or the least fault in it.
pub fn linted_program(alloc: Global, modules: Vec<Module>) -> Result<Linted, TopFault>
    requires { AllByRecursion IsOfText modules.items }
    ensures program { IfOk result
        (λ linted. linted.program ≡ numbered_program (with_prelude modules.items)) }
    ensures accepted { IfOk result (λ linted. IsAccepted (with_prelude modules.items)) }
    ensures stops { IfErr result (StopsLinting modules.items) }
{
    let program = program_of_files(alloc, modules)?;
    match lint(alloc, program) {
        Ok(linted) => Ok(linted),
        Err(LintAnswer::Fault(fault)) => Err(TopFault::Lint(fault)),
        Err(LintAnswer::Memory) => Err(TopFault::Memory),
    }
}

// The modules of the files, with those that each program has.
fn program_of_files(alloc: Global, modules: Vec<Module>) -> Result<Program, Memory>
    ensures { IfOk result (λ program. program ≡ with_prelude modules.items) }
{
    let prelude = prelude(alloc)?;
    Ok(Program {
        given: Items::from_vec(modules),
        prelude: Items::from_vec(prelude),
    })
}
