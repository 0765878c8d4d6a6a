ghost use Rattle.std.specs.Prelude.{◌≡◌, ◌≤◌, ◌<◌, ◌^◌, length, IfOk, OnOk, IsErrOf};
ghost use Rattle.hy_terms.specs.Naming.{place_in};
ghost use Rattle.hy_terms.specs.declared.atoms.AtomFault.TheVariants.{TooManyAtoms};
ghost use Rattle.hy_core.specs.Tables.{program_atoms, renamed as renamed_in, renamed_name as renamed_name_in, info_of as info_in};

use crate::table::program_texts;
use hy_core::{FunInfo, FunName, Function, Module, Program};
use hy_terms::{AtomFault, Atoms, Memory, TextTable};
use std::alloc::Global;
use std::marker::Model;

// The most texts whose places are numbers of 32 bits.
const MOST_TEXTS: usize = 1 << 32;

/// The texts of a program's atoms, however many, in which the number of a text is looked up and not
/// searched.
///
/// A contract sees it as the list of its texts.
#[derive(Drop)]
pub struct AtomNumbers {
    texts: TextTable,
}

impl Model for AtomNumbers {
    ghost use Rattle.std.specs.Prelude.{List, ℕ, ◌≤◌, ◌^◌, length};

    ghost Value = { List (List ℕ) };

    ghost view = { λ p. p.texts };

    ghost invariant = { λ p. length p.texts ≤ 2 ^ 32 };
}

// The table of these texts.
fn table_of(alloc: Global, texts: &TextTable) -> Result<Atoms, AtomFault>
    ensures ok { IfOk result (λ table. table ≡ texts.now) }
    ensures few { OnOk result (length texts.now ≤ 2 ^ 20) }
    ensures full { IsErrOf result TooManyAtoms → 2 ^ 20 < length texts.now }
{
    let mut table = Atoms::new(alloc);
    for place in 0..texts.len() {
        table.intern(texts.text(place))?;
    }
    Ok(table)
}

impl AtomNumbers {
    /// The texts of a program's atoms. `Memory` for want of memory, or for more than 2^32 texts.
    pub fn of(alloc: Global, program: &Program) -> Result<AtomNumbers, Memory>
        ensures { IfOk result (λ numbers. numbers ≡ program_atoms program.now) }
    {
        let texts = program_texts(alloc, program)?;
        if texts.len() > MOST_TEXTS {
            return Err(Memory);
        }
        Ok(AtomNumbers { texts })
    }

    /// The table of these atoms. `TooManyAtoms` exactly where there are more than 2^20, and
    /// `Memory` for want of memory.
    pub fn table(&self, alloc: Global) -> Result<Atoms, AtomFault>
        ensures ok { IfOk result (λ table. table ≡ self.now) }
        ensures few { OnOk result (length self.now ≤ 2 ^ 20) }
        ensures full { IsErrOf result TooManyAtoms → 2 ^ 20 < length self.now }
    {
        table_of(alloc, &self.texts)
    }

    /// The number of a text, where it has one.
    pub fn place(&self, text: &[u8]) -> Option<u32>
        ensures { result ≡ place_in self.now text.now }
    {
        if let Some(place) = self.texts.place(text) {
            return Some(place as u32);
        }
        None
    }
}

/// An atom of a module as an atom of the program with this table. A text that the table doesn't
/// have gets the number 0.
pub fn renamed(places: &AtomNumbers, names: &Module, atom: u32) -> u32
    ensures { result ≡ renamed_in places.now names.now atom }
{
    places.place(names.atoms.text_of(atom)).unwrap_or(0)
}

/// A function's name in a module as one in the program.
pub fn renamed_name(places: &AtomNumbers, names: &Module, name: FunName) -> FunName
    ensures { result ≡ renamed_name_in places.now names.now name }
{
    FunName {
        name: renamed(places, names, name.name),
        arity: name.arity,
    }
}

/// What the program's table of functions tells of a function of a module.
pub fn info_of(places: &AtomNumbers, names: &Module, function: &Function) -> FunInfo
    ensures { result ≡ info_in places.now names.now function.now }
{
    FunInfo {
        module: renamed(places, names, names.name),
        name: renamed_name(places, names, function.name),
    }
}
