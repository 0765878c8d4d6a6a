ghost use Rattle.std.specs.List.{AllByRecursion};
ghost use Rattle.std.specs.Prelude.{◌≡◌, ◌≤◌, ℕ, List, length, IfOk, IfErr};
ghost use Rattle.hy_core.specs.Reading.{IsModuleText};
ghost use Rattle.core_lint.specs.Linted.{IsOfText};
ghost use Rattle.hybrid_run.specs.CommandLine.{most_files};
ghost use Rattle.hybrid_run.specs.Loading.{AreReadWhereTold, IsReadWhereTold, StopsAt, StopsLoading, StopsParsing, sourced};

use crate::fault::TopFault;
use core_reader::{ReadAnswer, read_module};
use hy_core::Module;
use hy_terms::Words;
use outside::{SourceFault, Sources};
use std::alloc::Global;

/// Reads the text of each file, and its module, in order, up to the first fault.
pub fn load_all<S: Sources>(
    alloc: Global,
    files: &Words,
    sources: &mut S,
) -> Result<Vec<Module>, TopFault>
    requires { length files.now ≤ most_files }
    ensures loaded { IfOk result (λ zs. AreReadWhereTold (S.told sources.old) files.now zs.items) }
    ensures texts { IfOk result (λ zs. AllByRecursion IsOfText zs.items) }
    ensures stops { IfErr result (StopsLoading
        (sourced (S.told sources.old) (S.faults sources.old) (S.faults sources.new)) files.now) }
    ensures counts { (name : List ℕ) → S.faults sources.old name ≤ S.faults sources.new name }
    ensures same { (name : List ℕ) → S.told sources.new name ≡ S.told sources.old name }
{
    let mut modules = Vec::new(alloc);
    for place in 0..files.len() {
        let module = load(alloc, place as u32, files.word(place), sources)?;
        modules.push(module)?;
    }
    Ok(modules)
}

// Reads the text of the file at this place, and its module.
fn load<S: Sources>(
    alloc: Global,
    file: u32,
    name: &str,
    sources: &mut S,
) -> Result<Module, TopFault>
    ensures loaded { IfOk result (λ z. IsReadWhereTold (S.told sources.old) name.now z) }
    ensures stops { IfErr result (StopsAt
        (sourced (S.told sources.old) (S.faults sources.old) (S.faults sources.new))
        file name.now) }
    ensures counts { (other : List ℕ) → S.faults sources.old other ≤ S.faults sources.new other }
    ensures same { (other : List ℕ) → S.told sources.new other ≡ S.told sources.old other }
{
    match sources.read(alloc, name) {
        Ok(text) => parse(alloc, file, text.as_slice()),
        Err(SourceFault::Failed) => Err(TopFault::Read { file }),
        Err(SourceFault::Memory) => Err(TopFault::Memory),
    }
}

// The module of the text of the file at this place.
fn parse(alloc: Global, file: u32, text: &[u8]) -> Result<Module, TopFault>
    ensures loaded { IfOk result (λ z. IsModuleText text.now z) }
    ensures stops { IfErr result (StopsParsing text.now file) }
{
    match read_module(alloc, text) {
        Ok(module) => Ok(module),
        Err(ReadAnswer::Refused(refused)) => Err(TopFault::Refused { file, refused }),
        Err(ReadAnswer::Memory) => Err(TopFault::Memory),
    }
}
