ghost use Rattle.std.specs.Prelude.{◌≡◌, ℕ, ◌++◌, IfOk, OnOk};
ghost use Rattle.captured_syntax.specs.CapturedBy.{captured_by, variable_if};
ghost use Rattle.lifted_functions.specs.code.CapturedLists.{captured_at};

use capture_flow::Member;
use hy_terms::Memory;
use indexmap::IndexMap;
use sqlite_items::Items;
use std::alloc::Global;

/// The variables that a function captures.
pub fn listed(lists: &IndexMap<u32, Items<u32>>, function: u32) -> &[u32]
    ensures { result.now ≡ captured_at lists.now function }
{
    match lists.get(&function) {
        Some(list) => list.as_slice(),
        None => &[],
    }
}

// Puts a variable behind the others of its function.
fn push(alloc: Global, lists: &mut IndexMap<u32, Items<u32>>, member: Member) -> Result<(), Memory>
    ensures { OnOk result ((f : ℕ) → captured_at lists.new f
        ≡ captured_at lists.old f ++ variable_if f member) }
{
    if let Some(list) = lists.get_mut(&member.function) {
        list.push(member.variable)?;
        return Ok(());
    }
    let mut list = Items::new(alloc);
    list.push(member.variable)?;
    lists.insert(member.function, list)?;
    Ok(())
}

/// The variables of members under their functions, each list in the order of the members.
pub fn captured_lists(
    alloc: Global,
    members: &[Member],
) -> Result<IndexMap<u32, Items<u32>>, Memory>
    ensures { IfOk result (λ lists. (f : ℕ) → captured_at lists f ≡ captured_by members.now f) }
{
    let mut lists = IndexMap::new(alloc);
    for member in members {
        push(alloc, &mut lists, *member)?;
    }
    Ok(lists)
}
