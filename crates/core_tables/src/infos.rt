ghost use Rattle.std.specs.Prelude.{◌≡◌, ◌++◌, length, map, replicate, IfOk, OnOk};
ghost use Rattle.hy_core.specs.Tables.{info_of as info_in, local_functions, local_infos, program_atoms, program_functions, top_infos};
ghost use Rattle.hy_core.specs.SubPatterns.{joined};

use crate::atom_numbers::{AtomNumbers, info_of};
use crate::local_count::count_locals;
use crate::repeated::push_same;
use hy_core::{FunInfo, Function, Module, Program};
use hy_terms::Memory;
use std::alloc::Global;

// How many functions the letrecs of a function define.
pub(crate) fn local_functions_of(function: &Function) -> Result<usize, Memory>
    ensures { IfOk result (λ n. n ≡ length (local_functions function.now)) }
{
    let mut count = 0;
    count_locals(&mut count, &function.body)?;
    Ok(count)
}

// Appends the functions of a module.
fn push_module(infos: &mut Vec<FunInfo>, places: &AtomNumbers, names: &Module) -> Result<(), Memory>
    ensures { OnOk result (infos.new.items ≡ infos.old.items ++ map (info_in places.now names.now)
        names.now.functions) }
{
    let functions = names.functions.as_slice();
    for function in functions {
        infos.push(info_of(places, names, function))?;
    }
    Ok(())
}

// Appends the functions of modules, those of letrecs aside.
fn push_top(
    infos: &mut Vec<FunInfo>,
    places: &AtomNumbers,
    modules: &[Module],
) -> Result<(), Memory>
    ensures { OnOk result (infos.new.items ≡ infos.old.items ++ top_infos places.now modules.now) }
{
    for names in modules {
        push_module(infos, places, names)?;
    }
    Ok(())
}

// Appends the functions of the letrecs of a module.
fn push_letrecs(
    infos: &mut Vec<FunInfo>,
    places: &AtomNumbers,
    names: &Module,
) -> Result<(), Memory>
    ensures { OnOk result (infos.new.items ≡ infos.old.items
        ++ joined (map
        (λ f. replicate (length (local_functions f)) (info_in places.now names.now f))
        names.now.functions)) }
{
    let functions = names.functions.as_slice();
    for function in functions {
        let times = local_functions_of(function)?;
        push_same(infos, info_of(places, names, function), times)?;
    }
    Ok(())
}

// Appends the functions of the letrecs of modules.
fn push_local(
    infos: &mut Vec<FunInfo>,
    places: &AtomNumbers,
    modules: &[Module],
) -> Result<(), Memory>
    ensures { OnOk result (infos.new.items ≡ infos.old.items
        ++ local_infos places.now modules.now) }
{
    for names in modules {
        push_letrecs(infos, places, names)?;
    }
    Ok(())
}

/// The functions of a program in the order of their numbers: those of all modules, then those of
/// letrecs. The places are those of the program's table of atoms. `Memory` for want of memory.
pub fn function_table(
    alloc: Global,
    program: &Program,
    places: &AtomNumbers,
) -> Result<Vec<FunInfo>, Memory>
    requires { places.now ≡ program_atoms program.now }
    ensures { IfOk result (λ infos. infos.items ≡ program_functions program.now) }
{
    let mut infos = Vec::new(alloc);
    push_top(&mut infos, places, program.given.as_slice())?;
    push_top(&mut infos, places, program.prelude.as_slice())?;
    push_local(&mut infos, places, program.given.as_slice())?;
    push_local(&mut infos, places, program.prelude.as_slice())?;
    Ok(infos)
}
