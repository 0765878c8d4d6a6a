ghost use Rattle.std.specs.Prelude.{◌≡◌, ℕ, IfOk};
ghost use Rattle.captured_syntax.specs.CapturedBy.{captured_by};
ghost use Rattle.hy_core.specs.Resolve.{function_number};
ghost use Rattle.hy_core.specs.declared.tree.FunName.{FunName as AnyName};
ghost use Rattle.letrec_names.specs.NestedCounts.{program_counts};
ghost use Rattle.lifted_functions.specs.code.CapturedLists.{captured_at};
ghost use Rattle.lifted_functions.specs.code.FunctionNumbers.{number_at};

use crate::captured_lists::captured_lists;
use crate::function_numbers::function_numbers;
use capture_flow::Member;
use hy_core::{FunInfo, Module};
use hy_terms::Memory;
use indexmap::IndexMap;
use letrec_names::{NestedCounts, nested_counts};
use sqlite_items::Items;
use std::alloc::Global;

/// What lifting looks up: the numbers of the functions of modules, what functions of letrecs
/// capture, and how many functions stand in each.
#[derive(Drop)]
pub struct Tables {
    pub alloc: Global,
    pub functions: IndexMap<(u32, u32, u32), u32>,
    pub captured: IndexMap<u32, Items<u32>>,
    pub counts: NestedCounts,
}

/// The tables of a program.
pub fn program_tables(
    alloc: Global,
    functions: &[FunInfo],
    members: &[Member],
    modules: &[Module],
) -> Result<Tables, Memory>
    ensures functions { IfOk result (λ t. (m : ℕ) (f : AnyName)
        → number_at t.functions m f ≡ function_number functions.now m f) }
    ensures captured { IfOk result (λ t. (f : ℕ)
        → captured_at t.captured f ≡ captured_by members.now f) }
    ensures counts { IfOk result (λ t. t.counts ≡ program_counts modules.now) }
{
    let functions = function_numbers(alloc, functions)?;
    let captured = captured_lists(alloc, members)?;
    let counts = nested_counts(alloc, modules)?;
    Ok(Tables {
        alloc,
        functions,
        captured,
        counts,
    })
}
