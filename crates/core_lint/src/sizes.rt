ghost use Rattle.std.specs.Prelude.{◌≡◌, ◌≤◌, ◌<◌, ◌^◌, length, IfOk, IsErrOf, OnOk, Some};
ghost use Rattle.hy_core.specs.Faults.{fault_of};
ghost use Rattle.hy_core.specs.Numbered.{numbered_program, program_sites};
ghost use Rattle.hy_core.specs.Tables.{program_atoms, program_functions};
ghost use Rattle.hy_core.specs.declared.fault.Form.TheVariants as form;
ghost use Rattle.core_walk.specs.First.{IsFaultOf, IsFirst};
ghost use Rattle.core_lint.specs.code.Sizes.{IsWithinBefore};

use crate::answer::LintAnswer;
use crate::great_arity::has_great_arity;
use core_tables::{AtomNumbers, Numbered, function_table, number_program};
use hy_core::{Form, FunInfo, LintFault, Program};
use hy_terms::{AtomFault, Atoms};
use std::alloc::Global;

const MOST_FUNCTIONS: usize = 65_535;

const MOST_SITES: usize = 1 << 20;

// The fault of a size that is too great.
fn fault_of_size(form: Form) -> LintAnswer
    ensures { result ≡ LintAnswer.Fault (fault_of 10 0 0 0 form) }
{
    LintAnswer::Fault(LintFault {
        kind: 10,
        module: 0,
        function: 0,
        node: 0,
        form,
    })
}

/// The table of a program's functions, where they aren't too many and no arity is too great; else
/// the first fault of kind 10.
pub fn functions_within(
    alloc: Global,
    program: &Program,
    places: &AtomNumbers,
) -> Result<Vec<FunInfo>, LintAnswer>
    requires { places.now ≡ program_atoms program.now }
    ensures table { IfOk result (λ table. table.items ≡ program_functions program.now) }
    ensures within { OnOk result (IsWithinBefore program.now 12) }
    ensures great { (fault : LintFault) → IsErrOf result (LintAnswer.Fault fault) →
        IsFirst (IsFaultOf program.now 10) (Some fault) }
{
    let table = function_table(alloc, program, places)?;
    if table.len() > MOST_FUNCTIONS {
        return Err(fault_of_size(Form::Functions));
    }
    if has_great_arity(alloc, program)? {
        return Err(fault_of_size(Form::Arity));
    }
    Ok(table)
}

/// The numbered trees and the table of sites of a program whose functions and arities are within
/// their bounds, where the sites aren't too many; else the first fault of kind 10.
pub fn numbered_within(
    alloc: Global,
    program: Program,
    places: &AtomNumbers,
) -> Result<Numbered, LintAnswer>
    requires places { places.now ≡ program_atoms program }
    requires within { IsWithinBefore program 12 }
    ensures program { IfOk result (λ numbered. numbered.program ≡ numbered_program program) }
    ensures sites { IfOk result (λ numbered. numbered.sites.items ≡ program_sites program) }
    ensures within { OnOk result (IsWithinBefore program 13) }
    ensures great { (fault : LintFault) → IsErrOf result (LintAnswer.Fault fault) →
        IsFirst (IsFaultOf program 10) (Some fault) }
{
    let numbered = number_program(alloc, program, places)?;
    if numbered.sites.len() > MOST_SITES {
        return Err(fault_of_size(Form::Sites));
    }
    Ok(numbered)
}

/// The table of a program's atoms, where they aren't too many.
pub fn atoms_within(alloc: Global, places: &AtomNumbers) -> Result<Atoms, LintAnswer>
    ensures table { IfOk result (λ table. table ≡ places.now) }
    ensures few { OnOk result (length places.now ≤ 2 ^ 20) }
    ensures many { (fault : LintFault) → IsErrOf result (LintAnswer.Fault fault) →
        (fault ≡ fault_of 10 0 0 0 form.Atoms) × (2 ^ 20 < length places.now) }
{
    match places.table(alloc) {
        Ok(table) => Ok(table),
        Err(AtomFault::TooManyAtoms) => Err(fault_of_size(Form::Atoms)),
        Err(AtomFault::Memory) => Err(LintAnswer::Memory),
    }
}
