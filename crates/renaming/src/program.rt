ghost use Rattle.std.specs.Prelude.{◌≡◌, ℕ, List, map, reverse, IfOk};
ghost use Rattle.hy_core.specs.NameFaults.{modules_of};
ghost use Rattle.hy_core.specs.ProgramTrees.{function_trees};
ghost use Rattle.hy_core.specs.Resolve.{Names};
ghost use Rattle.lifted_program.specs.Renaming.{renamed_program};
ghost use Rattle.renaming.specs.RenamedProgram.{renamed_module, renamed_modules};

use crate::expressions::rename_functions;
use crate::scope::Scope;
use hy_core::{Module, Program};
use hy_terms::Memory;
use sqlite_items::Items;
use std::alloc::Global;

// A module, each of whose functions is renamed by itself.
fn rename_module(alloc: Global, limit: u32, source: Module) -> Result<Module, Memory>
    ensures { IfOk result (λ renamed. renamed ≡ renamed_module limit source) }
{
    let mut scope = Scope::new(alloc);
    let functions = rename_functions(limit, &mut scope, &source.functions)?;
    let Module {
        name,
        exports,
        functions: _,
        atoms,
        variables,
    } = source;
    Ok(Module {
        name,
        exports,
        functions,
        atoms,
        variables,
    })
}

// Modules, the last one first.
fn reversed(alloc: Global, mut modules: Items<Module>) -> Result<Items<Module>, Memory>
    ensures { IfOk result (λ left. left ≡ reverse modules) }
{
    let mut left = Items::new(alloc);
    while let Some(module) = modules.pop() {
        left.push(module)?;
    }
    Ok(left)
}

// Modules one after another.
fn rename_modules(
    alloc: Global,
    limit: u32,
    modules: Items<Module>,
) -> Result<Items<Module>, Memory>
    ensures { IfOk result (λ renamed. renamed ≡ map (renamed_module limit) modules) }
{
    let mut left = reversed(alloc, modules)?;
    let mut renamed = Items::new(alloc);
    while let Some(module) = left.pop() {
        renamed.push(rename_module(alloc, limit, module)?)?;
    }
    Ok(renamed)
}

/// A program with its variables renamed, so that no binding stands in the scope of another of its
/// variable. Names from `limit` on are new. `Memory` for want of memory, or where a new name would
/// pass its type.
pub fn rename_program(alloc: Global, limit: u32, program: Program) -> Result<Program, Memory>
    ensures renamed { IfOk result (λ renamed. renamed ≡ renamed_modules limit program) }
    // Its functions are those of the renamed program, with the same numbers of events and sites.
    ensures trees { IfOk result (λ renamed. (names : Names) (sites : List ℕ)
        → function_trees names sites (modules_of renamed)
        ≡ renamed_program limit (function_trees names sites (modules_of program))) }
{
    let Program { given, prelude } = program;
    let given = rename_modules(alloc, limit, given)?;
    let prelude = rename_modules(alloc, limit, prelude)?;
    Ok(Program { given, prelude })
}
