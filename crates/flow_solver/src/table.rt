ghost use Rattle.std.specs.Prelude.{◌≡◌, ◌↔◌, ℕ, true, IfOk, IsTrue, Contains};
ghost use Rattle.std.specs.List.{list_any};
ghost use Rattle.flow_sets.specs.Least.{Flows};
ghost use Rattle.flow_sets.specs.Table.{in_table, is_of};
ghost use Rattle.flow_sets.specs.Targets.{is_many};
ghost use Rattle.flow_sets.specs.declared.inclusion.FlowSet.{FlowSet as ASet};

use crate::members::Member;
use crate::worklist::solve_members;
use flow_sets::{FlowTable, Rules};
use hy_terms::Memory;
use std::alloc::Global;

// The table of these members.
fn table_of(alloc: Global, members: &[Member]) -> Result<FlowTable, Memory>
    ensures { IfOk result (λ table. (X : ASet) (s : ℕ) → is_many X ≡ true
        → in_table table X s ≡ list_any (λ member. is_of member.set member.site X s) members.now) }
{
    let mut table = FlowTable::new(alloc);
    for member in members {
        table.add(member.set, member.site)?;
    }
    Ok(table)
}

/// The least sets that are closed under the inclusions. Each new member of a set is carried on once
/// for each inclusion that reads the set.
pub fn solve(alloc: Global, rules: &Rules) -> Result<FlowTable, Memory>
    ensures exact { IfOk result (λ table. (X : ASet) (s : ℕ)
        → IsTrue (in_table table X s) ↔ Flows (Contains rules.now.items) X s) }
{
    let members = solve_members(alloc, rules.items.as_slice())?;
    let table = table_of(alloc, members.as_slice())?;
    Ok(table)
}
