ghost use Rattle.std.specs.Prelude.{◌≡◌, ℕ, ◌++◌, IfOk, OnOk};
ghost use Rattle.std.specs.List.{flat_map};
ghost use Rattle.capture_flow.specs.code.Edges.{edge_if, edge_to, edges_at};

use crate::fact::{Edge, Fact};
use hy_terms::Memory;
use indexmap::IndexMap;
use sqlite_items::Items;
use std::alloc::Global;

/// The edges of those that use a function.
pub fn listed(edges: &IndexMap<u32, Items<Edge>>, function: u32) -> &[Edge]
    ensures { result.now ≡ edges_at edges.now function }
{
    match edges.get(&function) {
        Some(list) => list.as_slice(),
        None => &[],
    }
}

// Puts an edge behind the others under the function that it uses.
fn push(alloc: Global, edges: &mut IndexMap<u32, Items<Edge>>, edge: Edge) -> Result<(), Memory>
    ensures { OnOk result ((f : ℕ) → edges_at edges.new f ≡ edges_at edges.old f ++ edge_if f edge) }
{
    if let Some(list) = edges.get_mut(&edge.used) {
        list.push(edge)?;
        return Ok(());
    }
    let mut list = Items::new(alloc);
    list.push(edge)?;
    edges.insert(edge.used, list)?;
    Ok(())
}

// The edge of a fact, where it has one.
fn note(alloc: Global, edges: &mut IndexMap<u32, Items<Edge>>, fact: &Fact) -> Result<(), Memory>
    ensures { OnOk result ((f : ℕ) → edges_at edges.new f
        ≡ edges_at edges.old f ++ edge_to f fact.now) }
{
    match fact {
        Fact::Occurs(_) => Ok(()),
        Fact::Uses(edge) => push(alloc, edges, *edge),
    }
}

/// The edges of facts, under the functions that they use.
pub fn edges_of(alloc: Global, facts: &[Fact]) -> Result<IndexMap<u32, Items<Edge>>, Memory>
    ensures { IfOk result (λ edges. (f : ℕ) → edges_at edges f ≡ flat_map (edge_to f) facts.now) }
{
    let mut edges = IndexMap::new(alloc);
    for fact in facts {
        note(alloc, &mut edges, fact)?;
    }
    Ok(edges)
}
