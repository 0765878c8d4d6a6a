ghost use Rattle.std.specs.Prelude.{◌≡◌, ◌+◌, length, map, reverse, IfOk, OnOk};
ghost use Rattle.hy_core.specs.Numbered.{function_count, numbered_functions, numbered_modules, numbered_program, program_sites};
ghost use Rattle.hy_core.specs.Tables.{program_atoms, renamed_name as renamed_name_in};
ghost use Rattle.core_tables.specs.code.NumberedModules.{numbered_function, numbered_module};

use crate::atom_numbers::{AtomNumbers, renamed, renamed_name};
use crate::expr::{copied, number_expr};
use crate::numbers::Numbers;
use hy_core::{FunName, Function, Module, Program, SiteInfo};
use hy_terms::{Atoms, Memory};
use sqlite_items::Items;
use std::alloc::Global;

/// A program with its own numbers of atoms and sites, and the table of its sites.
#[derive(Drop)]
pub struct Numbered {
    pub program: Program,
    pub sites: Vec<SiteInfo>,
}

// Adds how many functions a module has.
fn add_functions(count: &mut u32, names: &Module) -> Result<(), Memory>
    ensures { OnOk result (count.new ≡ count.old + length names.now.functions) }
{
    let more = u32::try_from(names.functions.len()).ok().ok_or(Memory)?;
    *count = count.checked_add(more).ok_or(Memory)?;
    Ok(())
}

// Adds how many functions modules have, those of letrecs aside.
fn count_functions(count: &mut u32, modules: &[Module]) -> Result<(), Memory>
    ensures { OnOk result (count.new ≡ count.old + function_count modules.now) }
{
    for names in modules {
        add_functions(count, names)?;
    }
    Ok(())
}

// A function of a module, which has this number.
fn number_function(
    alloc: Global,
    places: &AtomNumbers,
    names: &Module,
    numbers: &mut Numbers,
    number: u32,
    function: &Function,
) -> Result<Function, Memory>
    ensures { IfOk result (λ tree. (tree, numbers.new) ≡ numbered_function places.now names.now
        number function.now numbers.old) }
{
    numbers.enter();
    let body = number_expr(alloc, places, names, numbers, number, &function.body)?;
    Ok(Function {
        name: renamed_name(places, names, function.name),
        params: copied(alloc, &function.params)?,
        body,
    })
}

// The functions of a module, whose first has the next number.
fn number_functions(
    alloc: Global,
    places: &AtomNumbers,
    names: &Module,
    numbers: &mut Numbers,
    next: &mut u32,
) -> Result<Items<Function>, Memory>
    ensures trees { IfOk result (λ trees. (trees, numbers.new) ≡ numbered_functions places.now
        names.now next.old names.now.functions numbers.old) }
    ensures next { OnOk result (next.new ≡ next.old + length names.now.functions) }
{
    let mut trees = Items::new(alloc);
    for function in names.functions.as_slice() {
        trees.push(number_function(alloc, places, names, numbers, *next, function)?)?;
        *next = next.checked_add(1).ok_or(Memory)?;
    }
    Ok(trees)
}

// The names that a module exports.
fn number_exports(
    alloc: Global,
    places: &AtomNumbers,
    names: &Module,
) -> Result<Items<FunName>, Memory>
    ensures { IfOk result (λ exports. exports ≡ map (renamed_name_in places.now names.now)
        names.now.exports) }
{
    let mut exports = Items::new(alloc);
    for name in names.exports.as_slice() {
        exports.push(renamed_name(places, names, *name))?;
    }
    Ok(exports)
}

// A module, whose first function has the next number.
fn number_module(
    alloc: Global,
    places: &AtomNumbers,
    numbers: &mut Numbers,
    next: &mut u32,
    names: Module,
) -> Result<Module, Memory>
    ensures tree { IfOk result (λ tree. (tree, numbers.new) ≡ numbered_module places.now next.old
        names numbers.old) }
    ensures next { OnOk result (next.new ≡ next.old + length names.functions) }
{
    let name = renamed(places, &names, names.name);
    let exports = number_exports(alloc, places, &names)?;
    let functions = number_functions(alloc, places, &names, numbers, next)?;
    let Module {
        name: _,
        exports: _,
        functions: _,
        atoms: _,
        variables,
    } = names;
    Ok(Module {
        name,
        exports,
        functions,
        atoms: Atoms::new(alloc),
        variables,
    })
}

// Modules, the last one first.
fn reversed(alloc: Global, mut modules: Items<Module>) -> Result<Items<Module>, Memory>
    ensures { IfOk result (λ left. left ≡ reverse modules) }
{
    let mut left = Items::new(alloc);
    while let Some(names) = modules.pop() {
        left.push(names)?;
    }
    Ok(left)
}

// Modules, whose first function has the next number.
fn number_modules(
    alloc: Global,
    places: &AtomNumbers,
    numbers: &mut Numbers,
    next: &mut u32,
    modules: Items<Module>,
) -> Result<Items<Module>, Memory>
    ensures trees { IfOk result (λ trees. (trees, numbers.new) ≡ numbered_modules places.now
        next.old modules numbers.old) }
    ensures next { OnOk result (next.new ≡ next.old + function_count modules) }
{
    let mut left = reversed(alloc, modules)?;
    let mut trees = Items::new(alloc);
    while let Some(names) = left.pop() {
        trees.push(number_module(alloc, places, numbers, next, names)?)?;
    }
    Ok(trees)
}

/// The program with the numbers of its own atoms and sites, and the table of its sites. The places
/// are those of the program's table of atoms. `Memory` for want of memory, or where a number would
/// pass its type.
pub fn number_program(
    alloc: Global,
    program: Program,
    places: &AtomNumbers,
) -> Result<Numbered, Memory>
    requires { places.now ≡ program_atoms program }
    ensures program { IfOk result (λ numbered. numbered.program ≡ numbered_program program) }
    ensures sites { IfOk result (λ numbered. numbered.sites.items ≡ program_sites program) }
{
    let mut local = 0;
    count_functions(&mut local, program.given.as_slice())?;
    count_functions(&mut local, program.prelude.as_slice())?;
    let mut numbers = Numbers::new(alloc, local);
    let mut next = 0;
    let Program { given, prelude } = program;
    let given = number_modules(alloc, places, &mut numbers, &mut next, given)?;
    let prelude = number_modules(alloc, places, &mut numbers, &mut next, prelude)?;
    Ok(Numbered {
        program: Program { given, prelude },
        sites: numbers.into_sites(),
    })
}
