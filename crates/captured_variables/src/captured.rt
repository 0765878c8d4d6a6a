ghost use Rattle.std.specs.Prelude.{◌≡◌, ◌↔◌, ℕ, List, IfOk, OnOk};
ghost use Rattle.std.specs.List.{All, Contains, IsDistinct};
ghost use Rattle.capture_flow.specs.Least.{IsHad, is_member};
ghost use Rattle.capture_flow.specs.declared.fact.Member.{Member as AMember};
ghost use Rattle.hy_core.specs.ProgramTrees.{function_trees};
ghost use Rattle.hy_core.specs.Resolve.{Names};
ghost use Rattle.lifted_program.specs.Captured.{AreCaptured};
ghost use Rattle.lifted_syntax.specs.LiftingLaws.{modules_resolved};
ghost use Rattle.lifted_syntax.specs.Whole.{IsWhole};
ghost use Rattle.captured_syntax.specs.CapturedBy.{captured_by};
ghost use Rattle.captured_syntax.specs.Gathered.{program_facts};
ghost use Rattle.captured_variables.specs.code.Walked.{walked_modules};
ghost use Rattle.letrec_names.specs.NestedCounts.{program_counts};

use crate::expressions::gather_functions;
use crate::gathering::Gathering;
use capture_flow::{Member, least_members};
use hy_core::Module;
use hy_terms::Memory;
use indexmap::IndexSet;
use letrec_names::{NestedCounts, nested_counts};
use std::alloc::Global;

// Gathers the facts of modules, one after another.
fn gather_modules(
    counts: &NestedCounts,
    walk: &mut Gathering,
    modules: &[Module],
) -> Result<(), Memory>
    ensures { OnOk result (walk.new ≡ walked_modules counts.now walk.old modules.now) }
{
    for names in modules {
        gather_functions(counts, walk, names.functions.as_slice())?;
    }
    Ok(())
}

// What is gathered of a program, whose counts these are.
fn gather_program(
    alloc: Global,
    counts: &NestedCounts,
    modules: &[Module],
) -> Result<Gathering, Memory>
    requires { counts.now ≡ program_counts modules.now }
    ensures { IfOk result (λ walk. walk.facts ≡ program_facts modules.now) }
{
    let mut walk = Gathering::new(alloc, counts.first());
    gather_modules(counts, &mut walk, modules)?;
    Ok(walk)
}

/// The variables that the functions of letrecs of a program capture, each with its function and
/// the place of its outermost binding, counted from 1: what occurs in their own texts, and what
/// comes by those that they use. The functions have their numbers in the program. One pass counts
/// how many stand in each and one gathers the facts; each member is then carried once along each
/// edge of these. `Memory` for want of memory, or where a number passes its type.
pub fn captured_variables(alloc: Global, modules: &[Module]) -> Result<IndexSet<Member>, Memory>
    ensures exact { IfOk result (λ members. (m : AMember)
        → Contains members.keys m ↔ IsHad (Contains (program_facts modules.now)) m) }
    ensures once { IfOk result (λ members. IsDistinct is_member members.keys) }
    // They are what the functions of its trees capture, where no form of these is refused.
    ensures captured { IfOk result (λ members. (names : Names) (sites : List ℕ)
        → All (λ f. IsWhole f.body) (modules_resolved names modules.now)
        → AreCaptured (function_trees names sites modules.now) (captured_by members.keys)) }
{
    let counts = nested_counts(alloc, modules)?;
    let walk = gather_program(alloc, &counts, modules)?;
    let members = least_members(alloc, walk.facts())?;
    Ok(members)
}
