ghost use Rattle.std.specs.Prelude.{◌≡◌, ℕ, List, fold, IfOk, OnOk};
ghost use Rattle.captured_syntax.specs.CapturedBy.{captured_by};
ghost use Rattle.lifted_functions.specs.Texts.{names_with, texts};
ghost use Rattle.lifted_functions.specs.code.Extraction.{state_of};
ghost use Rattle.lifted_functions.specs.code.Programs.{
  extracted_from,
  with_extracted,
  with_top,
  with_tops,
};
ghost use Rattle.lifted_syntax.specs.ExtractedSyntax.{lifted_program};

use crate::copies::copied_variables;
use crate::expressions::lift_expr;
use crate::extraction::{Extracted, extract};
use crate::lifted_text::LiftedText;
use crate::tables::{Tables, program_tables};
use capture_flow::Member;
use hy_core::{FunInfo, Function, Module};
use hy_terms::Memory;
use indexmap::IndexSet;
use letrec_names::LetrecNames;
use sqlite_items::Items;
use std::alloc::Global;

// Puts a function of a module behind the others, without those of its letrecs.
fn lift_top(
    tables: &Tables,
    current: u32,
    done: &mut Extracted,
    function: &Function,
) -> Result<(), Memory>
    ensures { OnOk result (state_of done.new
        ≡ with_top tables.now current (state_of done.old) function.now) }
{
    let mut reach = LetrecNames::new(tables.alloc);
    let params = copied_variables(tables.alloc, &function.params)?;
    let body = lift_expr(tables, current, &mut reach, &mut done.next, &function.body)?;
    done.texts.push(LiftedText { params, body })?;
    Ok(())
}

// Puts the functions of a module behind the others.
fn lift_tops(
    tables: &Tables,
    current: u32,
    done: &mut Extracted,
    functions: &[Function],
) -> Result<(), Memory>
    ensures { OnOk result (state_of done.new
        ≡ fold (with_top tables.now current) (state_of done.old) functions.now) }
{
    for function in functions {
        lift_top(tables, current, done, function)?;
    }
    Ok(())
}

// Puts the functions of modules behind each other.
fn lift_modules(tables: &Tables, done: &mut Extracted, modules: &[Module]) -> Result<(), Memory>
    ensures { OnOk result (state_of done.new
        ≡ fold (with_tops tables.now) (state_of done.old) modules.now) }
{
    for names in modules {
        lift_tops(tables, names.name, done, names.functions.as_slice())?;
    }
    Ok(())
}

// Puts the functions of the letrecs of a function behind the others.
fn extract_top(
    tables: &Tables,
    current: u32,
    done: &mut Extracted,
    function: &Function,
) -> Result<(), Memory>
    ensures { OnOk result (state_of done.new
        ≡ extracted_from tables.now current (state_of done.old) function.now) }
{
    let mut reach = LetrecNames::new(tables.alloc);
    extract(tables, current, &mut reach, done, &function.body)
}

// Puts the functions of the letrecs of a module behind the others.
fn extract_tops(
    tables: &Tables,
    current: u32,
    done: &mut Extracted,
    functions: &[Function],
) -> Result<(), Memory>
    ensures { OnOk result (state_of done.new
        ≡ fold (extracted_from tables.now current) (state_of done.old) functions.now) }
{
    for function in functions {
        extract_top(tables, current, done, function)?;
    }
    Ok(())
}

// Puts the functions of the letrecs of modules behind the others.
fn extract_modules(tables: &Tables, done: &mut Extracted, modules: &[Module]) -> Result<(), Memory>
    ensures { OnOk result (state_of done.new
        ≡ fold (with_extracted tables.now) (state_of done.old) modules.now) }
{
    for names in modules {
        extract_tops(tables, names.name, done, names.functions.as_slice())?;
    }
    Ok(())
}

/// The functions of a program with its letrecs lifted: those of its modules, and then those of
/// letrecs in the order of their numbers. `functions` are the functions of the program by their
/// numbers, and `members` what functions of letrecs capture. `Memory` for want of memory, or where
/// a number passes its type.
pub fn lift_functions(
    alloc: Global,
    functions: &[FunInfo],
    members: &IndexSet<Member>,
    modules: &[Module],
) -> Result<Items<LiftedText>, Memory>
    ensures lifted { IfOk result (λ lifted. (atoms : List (List ℕ)) → texts lifted
        ≡ lifted_program (names_with atoms functions.now) (captured_by members.now.keys)
        modules.now) }
{
    let tables = program_tables(alloc, functions, members.as_slice(), modules)?;
    let first = tables.counts.first();
    let mut done = Extracted {
        texts: Items::new(alloc),
        next: first,
    };
    lift_modules(&tables, &mut done, modules)?;
    done.next = first;
    extract_modules(&tables, &mut done, modules)?;
    let Extracted { texts, next: _ } = done;
    Ok(texts)
}
