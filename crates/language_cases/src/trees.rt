ghost use Rattle.std.specs.Prelude.{◌≡◌, ◌++◌, IfOk, OnOk};
ghost use Rattle.hybrid_run.specs.Faults.{kind_name};
ghost use Rattle.language_cases.specs.Trees.{IsTreeAnswer, module_answer, refused_answer};

use crate::fault::CaseFault;
use crate::pieces::{push_names, push_shortened, there};
use core_reader::{ReadAnswer, Refused, prelude, print_module, read_module};
use hy_core::{Module, RefusalKind};
use hy_terms::push_quoted;
use std::alloc::Global;

/// The canonical text of the module that a text is read as, with its tables of atoms and variables,
/// or its refusal with what stands there.
pub fn tree_answer(alloc: Global, text: &[u8]) -> Result<Vec<u8>, CaseFault>
    ensures { IfOk result (λ answer. IsTreeAnswer text.now answer.items) }
{
    match read_module(alloc, text) {
        Ok(module) => module_text(alloc, &module),
        Err(ReadAnswer::Refused(refused)) => refused_text(alloc, text, refused),
        Err(ReadAnswer::Memory) => Err(CaseFault::Memory),
    }
}

/// The same of the module of the prelude that has this number.
pub fn prelude_answer(alloc: Global, number: u32) -> Result<Vec<u8>, CaseFault> {
    let modules = prelude(alloc)?;
    match modules.get(number as usize) {
        Some(module) => module_text(alloc, module),
        None => Err(CaseFault::Form),
    }
}

/// The canonical text of a module, and its tables of atoms and variables.
fn module_text(alloc: Global, module: &Module) -> Result<Vec<u8>, CaseFault>
    ensures { IfOk result (λ answer. answer.items ≡ module_answer «module».now) }
{
    let canonical = print_module(alloc, module)?;
    let mut answer = Vec::new(alloc);
    push_shortened(&mut answer, canonical.as_slice())?;
    push_names(&mut answer, "atoms", &module.atoms)?;
    push_names(&mut answer, "variables", &module.variables)?;
    Ok(answer)
}

/// Why a text is no module, and the bytes at which that shows.
fn refused_text(alloc: Global, text: &[u8], refused: Refused) -> Result<Vec<u8>, CaseFault>
    ensures { IfOk result
        (λ answer. answer.items ≡ refused_answer text.now refused.kind refused.place) }
{
    let line = format!(in alloc; "{} at {} ", name_of(refused.kind), refused.place)?;
    let mut answer = Vec::new(alloc);
    answer.extend_from_slice(line.as_bytes())?;
    push_quoted(&mut answer, b'`', there(text, refused.place))?;
    answer.push(b'\n')?;
    Ok(answer)
}

/// The name of a kind of refusal.
pub fn name_of(kind: RefusalKind) -> &'static str
    ensures { result.now ≡ kind_name kind }
{
    match kind {
        RefusalKind::BadToken => "BadToken",
        RefusalKind::Unexpected => "Unexpected",
        RefusalKind::Ended => "Ended",
        RefusalKind::NumberRange => "NumberRange",
        RefusalKind::TooDeep => "TooDeep",
        RefusalKind::TooLong => "TooLong",
    }
}
