ghost use Rattle.std.specs.Prelude.{◌≡◌, IfOk, filter};
ghost use Rattle.flow_solver.specs.code.Readers.{is_set, source as source_of};
ghost use Rattle.flow_solver.specs.code.Lists.{listed};
ghost use Rattle.flow_sets.specs.declared.inclusion.FlowSet.{FlowSet as ASet};

use crate::lists::push;
use flow_sets::{FlowSet, Inclusion};
use hy_terms::Memory;
use indexmap::IndexMap;
use sqlite_items::Items;
use std::alloc::Global;

/// The set that an inclusion reads.
pub fn source(rule: Inclusion) -> FlowSet
    ensures { result ≡ source_of rule }
{
    match rule {
        Inclusion::Whole { from, .. } => from,
        Inclusion::Part { base, .. } | Inclusion::Parts { base, .. } => base,
    }
}

/// The inclusions under the sets that they read.
pub fn readers_of(
    alloc: Global,
    rules: &[Inclusion],
) -> Result<IndexMap<FlowSet, Items<Inclusion>>, Memory>
    ensures { IfOk result (λ readers. (q : ASet) → listed is_set readers q
        ≡ filter (λ rule. is_set (source_of rule) q) rules.now) }
{
    let mut readers = IndexMap::new(alloc);
    for rule in rules {
        push(alloc, &mut readers, source(*rule), *rule)?;
    }
    Ok(readers)
}
