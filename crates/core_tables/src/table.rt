ghost use Rattle.std.specs.Prelude.{◌≡◌, map, IfOk, OnOk};
ghost use Rattle.hy_core.specs.BuiltIn.{own_atoms};
ghost use Rattle.hy_core.specs.Tables.{program_atoms, with_modules, with_texts};

use hy_core::{Module, Program};
use hy_terms::{Atoms, Memory, TextTable};
use std::alloc::Global;

// Names the texts that are new, in their order.
fn name_texts(table: &mut TextTable, texts: &[&[u8]]) -> Result<(), Memory>
    ensures { OnOk result (table.new ≡ with_texts table.old (map (λ text. text.now) texts.now)) }
{
    for text in texts {
        table.name(text)?;
    }
    Ok(())
}

// Names the texts of a table of atoms that are new, in their order.
fn name_atoms(table: &mut TextTable, atoms: &Atoms) -> Result<(), Memory>
    ensures { OnOk result (table.new ≡ with_texts table.old atoms.now) }
{
    for atom in 0..atoms.len() {
        table.name(atoms.text(atom))?;
    }
    Ok(())
}

fn name_modules(table: &mut TextTable, modules: &[Module]) -> Result<(), Memory>
    ensures { OnOk result (table.new ≡ with_modules table.old modules.now) }
{
    for names in modules {
        name_atoms(table, &names.atoms)?;
    }
    Ok(())
}

// The atoms with which the table of each program begins.
fn own_texts(alloc: Global) -> Result<TextTable, Memory>
    ensures { IfOk result (λ table. table ≡ own_atoms) }
{
    let mut table = TextTable::new(alloc);
    let texts = [
        b"true".as_slice(),
        b"false".as_slice(),
        b"badarith".as_slice(),
        b"badarg".as_slice(),
        b"system_limit".as_slice(),
        b"no_clause".as_slice(),
        b"function_clause".as_slice(),
    ];
    name_texts(&mut table, texts.as_slice())?;
    Ok(table)
}

/// The texts of a program's atoms, however many: its own first ones, then those of each module that
/// are new, the given modules before the prelude. `Memory` for want of memory.
pub fn program_texts(alloc: Global, program: &Program) -> Result<TextTable, Memory>
    ensures { IfOk result (λ table. table ≡ program_atoms program.now) }
{
    let mut table = own_texts(alloc)?;
    name_modules(&mut table, program.given.as_slice())?;
    name_modules(&mut table, program.prelude.as_slice())?;
    Ok(table)
}
