ghost use Rattle.std.specs.Prelude.{◌≡◌, IfOk};
ghost use Rattle.hy_core.specs.NameFaults.{modules_of};
ghost use Rattle.lifting.specs.Lifting.{IsLifting, LeavesNoLetrec, BindsApart, MeansTheSame};

use crate::assembly::assembled_functions;
use captured_variables::captured_variables;
use core_lint::Linted;
use event_nodes::event_nodes;
use hy_core::{Module, Program};
use hy_terms::Memory;
use letrec_names::function_origins;
use lifted_functions::lift_functions;
use lifted_syntax::Lifted;
use renaming::{rename_program, variable_limit};
use sqlite_items::Items;
use std::alloc::Global;

// The modules of a program in one list.
fn all_modules(program: Program) -> Result<Items<Module>, Memory>
    ensures { IfOk result (λ modules. modules ≡ modules_of program) }
{
    let Program { given, prelude } = program;
    let mut modules = given;
    modules.append(prelude)?;
    Ok(modules)
}

/// Makes a function of the program of each function of a letrec. Variables are renamed where two
/// bindings of one name would meet; then the functions of modules come first, and those of letrecs
/// in the order of their numbers, with what they capture as their first parameters. The tables of
/// atoms, names and sites stay. `Memory` for want of memory, or where a number passes its type.
pub fn lift(alloc: Global, linted: Linted) -> Result<Lifted, Memory>
    ensures lifted { IfOk result (λ lifted. ∥ IsLifting linted lifted ∥₁) }
    ensures atoms { IfOk result (λ lifted. lifted.atoms ≡ linted.atoms) }
    ensures names { IfOk result (λ lifted. lifted.names ≡ linted.functions) }
    ensures sites { IfOk result (λ lifted. lifted.sites ≡ linted.sites) }
    // What follows of it.
    ensures meaning { IfOk result (λ lifted. ∥ MeansTheSame linted lifted ∥₁) }
    ensures flat { IfOk result (λ lifted. ∥ LeavesNoLetrec lifted ∥₁) }
    ensures apart { IfOk result (λ lifted. ∥ BindsApart lifted ∥₁) }
{
    let Linted {
        program,
        atoms,
        functions: names,
        sites,
    } = linted;
    let limit = variable_limit(&program)?;
    let renamed = rename_program(alloc, limit, program)?;
    let modules = all_modules(renamed)?;
    let members = captured_variables(alloc, modules.as_slice())?;
    let texts = lift_functions(alloc, names.as_slice(), &members, modules.as_slice())?;
    let nodes = event_nodes(alloc, &atoms, modules.as_slice())?;
    let origins = function_origins(alloc, modules.as_slice())?;
    let functions = assembled_functions(alloc, origins.as_slice(), texts, nodes)?;
    Ok(Lifted {
        functions,
        atoms,
        names,
        sites,
    })
}
