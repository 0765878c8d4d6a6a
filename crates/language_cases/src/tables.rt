ghost use Rattle.std.specs.Prelude.{◌≡◌, ◌++◌, IfOk, OnOk};
ghost use Rattle.std.specs.List.{AllByRecursion, AllZip, flat_map};
ghost use Rattle.hy_core.specs.Faults.{IsAccepted};
ghost use Rattle.hy_core.specs.Numbered.{program_sites};
ghost use Rattle.hy_core.specs.PreludeModules.{with_prelude};
ghost use Rattle.hy_core.specs.Reading.{IsModuleText};
ghost use Rattle.hy_core.specs.Tables.{program_atoms, program_functions};
ghost use Rattle.core_lint.specs.Linted.{IsOfText};
ghost use Rattle.language_cases.specs.Tables.{IsTablesAnswer, function_text, kind_name, site_text, table_line, tables_text};

use crate::fault::CaseFault;
use crate::numbers::push_numbers;
use crate::pieces::{push_names, push_shortened};
use core_lint::{LintAnswer, Linted, lint};
use core_reader::{ReadAnswer, prelude, read_module};
use hy_core::{FunInfo, Module, Program, SiteInfo, SiteKind, Text};
use hy_terms::{Atoms, push_atom};
use sqlite_items::Items;
use std::alloc::Global;

/// The tables of the program of the modules of these texts, which has no fault, and then the numbers
/// in its trees.
pub fn tables_answer(alloc: Global, texts: &[Text]) -> Result<Vec<u8>, CaseFault>
    ensures { IfOk result (λ answer. IsTablesAnswer texts.now answer.items) }
{
    let modules = modules_of(alloc, texts)?;
    let linted = linted_of(alloc, modules)?;
    let numbers = numbers_in(alloc, &linted)?;
    let mut answer = tables_of(alloc, &linted)?;
    answer.extend_from_slice(numbers.as_slice())?;
    Ok(answer)
}

/// The modules of these texts.
pub fn modules_of(alloc: Global, texts: &[Text]) -> Result<Vec<Module>, CaseFault>
    ensures trees { IfOk result (λ modules. AllZip IsModuleText texts.now modules.items) }
    ensures texts { IfOk result (λ modules. AllByRecursion IsOfText modules.items) }
{
    let mut modules = Vec::new(alloc);
    for text in texts {
        let module = module_of(alloc, text.as_slice())?;
        modules.push(module)?;
    }
    Ok(modules)
}

/// The module of this text.
fn module_of(alloc: Global, text: &[u8]) -> Result<Module, CaseFault>
    ensures { IfOk result (λ z. IsModuleText text.now z) }
{
    match read_module(alloc, text) {
        Ok(module) => Ok(module),
        Err(ReadAnswer::Refused(_)) => Err(CaseFault::Form),
        Err(ReadAnswer::Memory) => Err(CaseFault::Memory),
    }
}

/// The program of these modules, which has no fault, with its own numbers.
pub fn linted_of(alloc: Global, modules: Vec<Module>) -> Result<Linted, CaseFault>
    requires { AllByRecursion IsOfText modules.items }
    ensures accepted { OnOk result (IsAccepted (with_prelude modules.items)) }
    ensures atoms { IfOk result
        (λ linted. linted.atoms ≡ program_atoms (with_prelude modules.items)) }
    ensures functions { IfOk result
        (λ linted. linted.functions.items ≡ program_functions (with_prelude modules.items)) }
    ensures sites { IfOk result
        (λ linted. linted.sites.items ≡ program_sites (with_prelude modules.items)) }
{
    let program = program_of(alloc, modules)?;
    match lint(alloc, program) {
        Ok(linted) => Ok(linted),
        Err(LintAnswer::Fault(_)) => Err(CaseFault::Form),
        Err(LintAnswer::Memory) => Err(CaseFault::Memory),
    }
}

/// The program of these modules.
fn program_of(alloc: Global, modules: Vec<Module>) -> Result<Program, CaseFault>
    ensures { IfOk result (λ program. program ≡ with_prelude modules.items) }
{
    let prelude = prelude(alloc)?;
    Ok(Program {
        given: Items::from_vec(modules),
        prelude: Items::from_vec(prelude),
    })
}

/// The tables of a program.
fn tables_of(alloc: Global, linted: &Linted) -> Result<Vec<u8>, CaseFault>
    ensures { IfOk result (λ answer. answer.items ≡
        tables_text linted.now.atoms linted.now.functions.items linted.now.sites.items) }
{
    let functions = functions_in(alloc, &linted.atoms, linted.functions.as_slice())?;
    let sites = sites_in(alloc, linted.sites.as_slice())?;
    let mut answer = Vec::new(alloc);
    push_names(&mut answer, "atoms", &linted.atoms)?;
    push_line(&mut answer, b"functions", functions.as_slice())?;
    push_line(&mut answer, b"sites", sites.as_slice())?;
    Ok(answer)
}

fn push_line(answer: &mut Vec<u8>, title: &[u8], text: &[u8]) -> Result<(), CaseFault>
    ensures { OnOk result (answer.new.items ≡ answer.old.items ++ table_line title.now text.now) }
{
    answer.extend_from_slice(title)?;
    push_shortened(answer, text)?;
    answer.push(b'\n')?;
    Ok(())
}

/// A line with the numbers in the trees of the given modules.
fn numbers_in(alloc: Global, linted: &Linted) -> Result<Vec<u8>, CaseFault> {
    let mut line = Vec::from_slice(alloc, b"numbers")?;
    for module in linted.program.given.as_slice() {
        push_numbers(&mut line, module)?;
    }
    line.push(b'\n')?;
    Ok(line)
}

/// The functions of a program, each as its module's name, its own name and its arity.
pub fn functions_in(
    alloc: Global,
    atoms: &Atoms,
    functions: &[FunInfo],
) -> Result<Vec<u8>, CaseFault>
    ensures { IfOk result (λ line. line.items ≡ flat_map (function_text atoms.now) functions.now) }
{
    let mut line = Vec::new(alloc);
    for info in functions {
        push_function(&mut line, atoms, *info)?;
    }
    Ok(line)
}

fn push_function(line: &mut Vec<u8>, atoms: &Atoms, info: FunInfo) -> Result<(), CaseFault>
    ensures { OnOk result (line.new.items ≡ line.old.items ++ function_text atoms.now info) }
{
    line.push(b' ')?;
    push_atom(line, atoms.text_of(info.module))?;
    line.push(b':')?;
    push_atom(line, atoms.text_of(info.name.name))?;
    let arity = format!(in *line.allocator(); "/{}", info.name.arity)?;
    line.extend_from_slice(arity.as_bytes())?;
    Ok(())
}

/// The sites of a program, each as its function's number, its node and what is built there.
pub fn sites_in(alloc: Global, sites: &[SiteInfo]) -> Result<Vec<u8>, CaseFault>
    ensures { IfOk result (λ line. line.items ≡ flat_map site_text sites.now) }
{
    let mut line = Vec::new(alloc);
    for site in sites {
        push_site(&mut line, *site)?;
    }
    Ok(line)
}

fn push_site(line: &mut Vec<u8>, site: SiteInfo) -> Result<(), CaseFault>
    ensures { OnOk result (line.new.items ≡ line.old.items ++ site_text site) }
{
    let text = format!(in *line.allocator();
        " {}:{} {}",
        site.function,
        site.node,
        name_of(site.kind)
    )?;
    line.extend_from_slice(text.as_bytes())?;
    Ok(())
}

fn name_of(kind: SiteKind) -> &'static str
    ensures { result.now ≡ kind_name kind }
{
    match kind {
        SiteKind::Tuple => "tuple",
        SiteKind::Cons => "cons",
        SiteKind::String => "string",
        SiteKind::Setelement => "setelement",
    }
}
