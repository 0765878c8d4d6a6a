ghost use Rattle.std.specs.Prelude.{◌≡◌, ◌+◌, length, IfOk, OnOk};
ghost use Rattle.hy_core.specs.Numbered.{function_count};
ghost use Rattle.event_nodes.specs.EventNodes.{own_events};
ghost use Rattle.event_nodes.specs.LiftedEvents.{AreLiftedEvents};
ghost use Rattle.event_nodes.specs.code.Walked.{walked_modules};

use crate::events::Events;
use crate::expressions::walk_functions;
use crate::sharing::share;
use hy_core::Module;
use hy_terms::{Atoms, Memory};
use sqlite_items::Items;
use std::alloc::Global;

// How many functions modules have.
fn count_functions(modules: &[Module]) -> Result<u32, Memory>
    ensures { IfOk result (λ count. count ≡ function_count modules.now) }
{
    let mut count: u32 = 0;
    for names in modules {
        let own = u32::try_from(names.functions.len()).map_err(|_| Memory)?;
        count = count.checked_add(own).ok_or(Memory)?;
    }
    Ok(count)
}

// Finds the events of modules, one after another.
fn walk_modules(atoms: &Atoms, walk: &mut Events, modules: &[Module]) -> Result<(), Memory>
    ensures { OnOk result (walk.new ≡ walked_modules atoms.now walk.old modules.now) }
{
    for names in modules {
        walk_functions(atoms, walk, names.functions.as_slice())?;
    }
    Ok(())
}

/// The nodes of the events of each function of a program, by the numbers of functions: those of
/// modules come first, then those of letrecs, in the order in which they begin. An event is a call
/// of `!`, `send`, `spawn` or `display`; its node is its place among the nodes of the function of
/// a module in which it stands, and nodes are in the order of the text. One pass over the modules,
/// whose atoms are of this table, finds all events. `Memory` for want of memory, or where a number
/// passes its type.
pub fn event_nodes(
    alloc: Global,
    atoms: &Atoms,
    modules: &[Module],
) -> Result<Vec<Items<u32>>, Memory>
    ensures owned { IfOk result (λ lists. lists.items ≡ own_events atoms.now modules.now) }
    // They are those of its lifted trees, where these are known.
    ensures lifted { IfOk result (λ lists.
        AreLiftedEvents atoms.now modules.now lists.items) }
{
    let first = count_functions(modules)?;
    let mut walk = Events::new(alloc, first);
    walk_modules(atoms, &mut walk, modules)?;
    share(alloc, walk.next(), walk.found())
}
