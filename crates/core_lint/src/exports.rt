ghost use Rattle.std.specs.Prelude.{◌≡◌, ℕ, ◌<◌, ◌||◌, ◌↔◌, true, false, List, length, Some, IfOk, OnOk};
ghost use Rattle.hy_terms.specs.Naming.{place_in};
ghost use Rattle.hy_core.specs.NameFaults.{IsExported};
ghost use Rattle.core_lint.specs.code.Exports.{has_export, has_row as has_row_at, is_export, is_exported, module_exports};

use hy_core::{Module, Program};
use hy_terms::{Memory, TextTable};
use indexmap::IndexSet;
use std::alloc::Global;
use std::marker::Model;

/// The exports of a program.
///
/// A contract sees them as texts, and for each export the places of its module and of its name
/// among them, with its arity.
#[derive(Drop)]
pub struct Exports {
    texts: TextTable,
    rows: IndexSet<(usize, usize, usize)>,
}

impl Model for Exports {
    ghost use Rattle.std.specs.Prelude.{length};
    ghost use Rattle.core_lint.specs.code.Exports.{ExportTable, RowsWithin};

    ghost Value = { ExportTable };

    ghost view = { λ e. record { texts = e.texts; rows = e.rows.keys } };

    ghost invariant = { λ e. RowsWithin (length e.texts) e.rows.keys };
}

// Whether there is a row with these places.
fn has_row(
    rows: &IndexSet<(usize, usize, usize)>,
    module: Option<usize>,
    name: Option<usize>,
    arity: usize,
) -> bool
    ensures { result ≡ has_row_at rows.now.keys «module» name arity }
{
    if let Some(module) = module
        && let Some(name) = name
    {
        return rows.contains(&(module, name, arity));
    }
    false
}

impl Exports {
    // No exports.
    fn new(alloc: Global) -> Exports
        ensures { (a b : List ℕ) (n : ℕ) → has_export result a b n ≡ false }
    {
        Exports {
            texts: TextTable::new(alloc),
            rows: IndexSet::new(alloc),
        }
    }

    // The place of the name of a module, which is named once for all its exports.
    fn name(&mut self, of_module: &[u8]) -> Result<usize, Memory>
        ensures place { IfOk result (λ place. place_in self.new.texts of_module.now ≡ Some place) }
        ensures same { OnOk result ((a b : List ℕ) (n : ℕ) → has_export self.new a b n
            ≡ has_export self.old a b n) }
    {
        let place = self.texts.name(of_module)?;
        Ok(place)
    }

    // Adds an export of the module whose name has this place.
    fn add(&mut self, place: usize, name: &[u8], arity: usize) -> Result<(), Memory>
        requires { place < length self.old.texts }
        ensures { OnOk result ((of_module : List ℕ) → place_in self.old.texts of_module
            ≡ Some place → (place_in self.new.texts of_module ≡ Some place)
            × ((a b : List ℕ) (n : ℕ) → has_export self.new a b n
            ≡ (has_export self.old a b n || is_export of_module name.now arity a b n))) }
    {
        let name = self.texts.name(name)?;
        self.rows.insert((place, name, arity))?;
        Ok(())
    }

    // Adds the exports of a module.
    fn add_module(&mut self, names: &Module) -> Result<(), Memory>
        ensures { OnOk result ((a b : List ℕ) (n : ℕ) → has_export self.new a b n
            ≡ (has_export self.old a b n || module_exports names.now a b n)) }
    {
        let place = self.name(names.atoms.text_of(names.name))?;
        for export in names.exports.as_slice() {
            self.add(
                place,
                names.atoms.text_of(export.name),
                export.arity as usize,
            )?;
        }
        Ok(())
    }

    // Adds the exports of modules.
    fn add_modules(&mut self, modules: &[Module]) -> Result<(), Memory>
        ensures { OnOk result ((a b : List ℕ) (n : ℕ) → has_export self.new a b n
            ≡ (has_export self.old a b n || is_exported modules.now a b n)) }
    {
        for names in modules {
            self.add_module(names)?;
        }
        Ok(())
    }

    /// The exports of a program.
    pub fn of(alloc: Global, program: &Program) -> Result<Exports, Memory>
        ensures { IfOk result (λ exports. (a b : List ℕ) (n : ℕ)
            → (has_export exports a b n ≡ true) ↔ IsExported program.now a b n) }
    {
        let mut exports = Exports::new(alloc);
        exports.add_modules(program.given.as_slice())?;
        exports.add_modules(program.prelude.as_slice())?;
        Ok(exports)
    }

    /// Whether a module of this name exports a function of this name and arity.
    pub fn contains(&self, module: &[u8], name: &[u8], arity: usize) -> bool
        ensures { result ≡ has_export self.now «module».now name.now arity }
    {
        has_row(
            &self.rows,
            self.texts.place(module),
            self.texts.place(name),
            arity,
        )
    }
}
