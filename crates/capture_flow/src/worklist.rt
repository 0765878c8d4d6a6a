ghost use Rattle.std.specs.Prelude.{◌≡◌, ◌↔◌, IfOk, OnOk};
ghost use Rattle.std.specs.List.{All, Contains, IsDistinct};
ghost use Rattle.capture_flow.specs.Least.{IsHad, is_member};
ghost use Rattle.capture_flow.specs.code.Members.{Extends, Given, IsCarried};
ghost use Rattle.capture_flow.specs.declared.fact.Member.{Member as AMember};

use crate::edges::{edges_of, listed};
use crate::fact::{Edge, Fact, Member};
use crate::members::{carry, seed_all};
use hy_terms::Memory;
use indexmap::{IndexMap, IndexSet};
use sqlite_items::Items;
use std::alloc::Global;

// Carries each member on. The members are the worklist: new ones go last.
fn run(edges: &IndexMap<u32, Items<Edge>>, members: &mut IndexSet<Member>) -> Result<(), Memory>
    ensures sound { OnOk result
        (All (IsHad (Given edges.now members.old.keys)) members.new.keys) }
    ensures grows { OnOk result (Extends members.old.keys members.new.keys) }
    ensures carried { OnOk result
        (All (IsCarried edges.now members.new.keys) members.new.keys) }
    ensures once { OnOk result (IsDistinct is_member members.new.keys) }
{
    let mut next = 0;
    while next < members.len() {
        let member = members.as_slice()[next];
        carry(members, listed(edges, member.function), member)?;
        next += 1;
    }
    Ok(())
}

/// What functions have by these facts: what occurs in them, and what functions that they use have,
/// of the places up to the depth of the edge. Each goes on once along each edge.
pub fn least_members(alloc: Global, facts: &[Fact]) -> Result<IndexSet<Member>, Memory>
    ensures exact { IfOk result (λ members. (m : AMember)
        → Contains members.keys m ↔ IsHad (Contains facts.now) m) }
    ensures once { IfOk result (λ members. IsDistinct is_member members.keys) }
{
    let edges = edges_of(alloc, facts)?;
    let mut members = IndexSet::new(alloc);
    seed_all(&mut members, facts)?;
    run(&edges, &mut members)?;
    Ok(members)
}
