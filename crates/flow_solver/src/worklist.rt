ghost use Rattle.std.specs.Prelude.{◌≡◌, ◌↔◌, ℕ, IfOk, OnOk, Contains};
ghost use Rattle.std.specs.List.{All as Each};
ghost use Rattle.flow_sets.specs.Least.{Flows};
ghost use Rattle.flow_sets.specs.declared.inclusion.FlowSet.{FlowSet as ASet};
ghost use Rattle.flow_solver.specs.code.Carries.{Steady, Grows, Carried, Reads, AreIndexed};
ghost use Rattle.flow_solver.specs.code.Members.{IsIn, AddsEach};
ghost use Rattle.flow_solver.specs.code.Tables.{state_of};
ghost use Rattle.flow_solver.specs.code.Readers.{seed_of, seeds};

use crate::members::{Member, add};
use crate::readers::{readers_of, source};
use crate::work::{Work, begin, carry};
use flow_sets::{FlowSet, Inclusion};
use hy_terms::Memory;
use indexmap::{IndexMap, IndexSet};
use sqlite_items::Items;
use std::alloc::Global;

// The one site of a set of one site.
fn seed(members: &mut IndexSet<Member>, set: FlowSet) -> Result<(), Memory>
    ensures { OnOk result
        (AddsEach (λ member. member) (seed_of set) members.old.keys members.new.keys) }
{
    if let FlowSet::Only(site) = set {
        add(members, set, site)?;
    }
    Ok(())
}

// The one site of each set of one site that is read.
fn seed_all(members: &mut IndexSet<Member>, rules: &[Inclusion]) -> Result<(), Memory>
    ensures { OnOk result
        (AddsEach (λ member. member) (seeds rules.now) members.old.keys members.new.keys) }
{
    for rule in rules {
        seed(members, source(*rule))?;
    }
    Ok(())
}

// Carries each member on. The members are the worklist: new ones go last.
fn run(
    alloc: Global,
    work: &mut Work,
    readers: &IndexMap<FlowSet, Items<Inclusion>>,
) -> Result<(), Memory>
    requires indexed { AreIndexed readers.now }
    requires steady { Steady (Reads readers.now) (state_of work.old) }
    ensures steady { OnOk result (Steady (Reads readers.now) (state_of work.new)) }
    ensures grows { OnOk result (Grows (state_of work.old) (state_of work.new)) }
    ensures carried { OnOk result
        (Each (Carried readers.now (state_of work.new)) work.new.members.keys) }
{
    let mut next = 0;
    while next < work.members.len() {
        let member = work.members.as_slice()[next];
        carry(alloc, work, readers, member)?;
        next += 1;
    }
    Ok(())
}

/// The members of the least sets that are closed under the inclusions. A set of one site that no
/// inclusion reads has none.
pub fn solve_members(alloc: Global, rules: &[Inclusion]) -> Result<IndexSet<Member>, Memory>
    ensures { IfOk result (λ members. (X : ASet) (s : ℕ)
        → IsIn members.keys X s ↔ Flows (Contains rules.now) X s) }
{
    let readers = readers_of(alloc, rules)?;
    let mut work = begin(alloc);
    seed_all(&mut work.members, rules)?;
    run(alloc, &mut work, &readers)?;
    let Work { members, .. } = work;
    Ok(members)
}
