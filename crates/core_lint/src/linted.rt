ghost use Rattle.std.specs.List.{AllByRecursion, AllZip};
ghost use Rattle.std.specs.Prelude.{◌≡◌, IfOk, IsErrOf, OnOk};
ghost use Rattle.hy_core.specs.Faults.{IsAccepted, IsLeastFault};
ghost use Rattle.hy_core.specs.NameFaults.{modules_of};
ghost use Rattle.hy_core.specs.Numbered.{numbered_program, program_sites};
ghost use Rattle.hy_core.specs.PreludeModules.{prelude_modules};
ghost use Rattle.hy_core.specs.Tables.{program_atoms, program_functions};
ghost use Rattle.hy_core.specs.declared.tree.Program.{Program};
ghost use Rattle.core_lint.specs.Linted.{IsLinted, IsOfText, KeepsText};

use crate::answer::LintAnswer;
use crate::kinds::first_in_kinds;
use crate::sizes::{atoms_within, functions_within, numbered_within};
use core_tables::AtomNumbers;
use hy_core::{FunInfo, LintFault, Program, SiteInfo};
use hy_terms::Atoms;
use std::alloc::Global;

/// An accepted program with its own numbers: of atoms in its trees, names, exports and tables, and
/// of sites in its trees. The tables of atoms of its modules are empty.
///
/// `atoms` is the table of the whole program, `functions` stands in the order of the functions'
/// numbers, and `sites` in the order of the sites' numbers. Each value has come of an accepted
/// program, whose modules are the trees of texts and the prelude, by `of_accepted`.
#[derive(Drop)]
pub struct Linted {
    pub program: Program,
    pub atoms: Atoms,
    pub functions: Vec<FunInfo>,
    pub sites: Vec<SiteInfo>,
    pub ghost of_accepted: { ∥ ((before : Program) ×
        IsLinted before program atoms functions.items sites.items) ∥₁ },
}

/// Gives an accepted program its own numbers and its tables. A program that isn't accepted is given
/// up: `Fault` is its least fault, by kind, then by module, function and node, and then by form.
/// `Memory` for want of memory. What is given are the trees of texts, and the prelude is the one that
/// each program has.
pub fn lint(alloc: Global, program: Program) -> Result<Linted, LintAnswer>
    requires read { AllByRecursion IsOfText program.given }
    requires prelude { program.prelude ≡ prelude_modules }
    ensures accepted { OnOk result (IsAccepted program) }
    ensures program { IfOk result (λ linted. linted.program ≡ numbered_program program) }
    ensures atoms { IfOk result (λ linted. linted.atoms ≡ program_atoms program) }
    ensures functions { IfOk result (λ linted. linted.functions.items ≡ program_functions program) }
    ensures sites { IfOk result (λ linted. linted.sites.items ≡ program_sites program) }
    // The canonical texts of the modules stay.
    ensures texts { IfOk result (λ linted.
        AllZip (KeepsText linted.atoms) (modules_of program) (modules_of linted.program)) }
    ensures least { (fault : LintFault) →
        IsErrOf result (LintAnswer.Fault fault) → IsLeastFault program fault }
{
    if let Some(fault) = first_in_kinds(alloc, &program)? {
        return Err(LintAnswer::Fault(fault));
    }
    let places = AtomNumbers::of(alloc, &program)?;
    let functions = functions_within(alloc, &program, &places)?;
    let numbered = numbered_within(alloc, program, &places)?;
    let atoms = atoms_within(alloc, &places)?;
    Ok(Linted {
        program: numbered.program,
        atoms,
        functions,
        sites: numbered.sites,
    })
}
