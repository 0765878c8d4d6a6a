ghost use Rattle.std.specs.Prelude.{◌≡◌, IfOk, OnOk};
ghost use Rattle.event_nodes.specs.code.Distributed.{distributed, empty_lists, given};

use crate::events::Event;
use hy_terms::Memory;
use sqlite_items::Items;
use std::alloc::Global;

// So many lists with nothing in them.
fn make_lists(alloc: Global, many: u32) -> Result<Vec<Items<u32>>, Memory>
    ensures { IfOk result (λ lists. lists.items ≡ empty_lists many) }
{
    let mut lists = Vec::new(alloc);
    for _ in 0..many {
        lists.push(Items::new(alloc))?;
    }
    Ok(lists)
}

// Puts a node behind the others of its function, where there is a list for that.
fn give(lists: &mut Vec<Items<u32>>, event: Event) -> Result<(), Memory>
    ensures { OnOk result (lists.new.items ≡ given lists.old.items event.owner event.node) }
{
    if let Some(list) = lists.get_mut(event.owner as usize) {
        list.push(event.node)?;
    }
    Ok(())
}

/// Shares out events among so many functions, in order.
pub fn share(alloc: Global, many: u32, events: &[Event]) -> Result<Vec<Items<u32>>, Memory>
    ensures { IfOk result (λ lists. lists.items ≡ distributed (empty_lists many) events.now) }
{
    let mut lists = make_lists(alloc, many)?;
    for event in events {
        give(&mut lists, *event)?;
    }
    Ok(lists)
}
