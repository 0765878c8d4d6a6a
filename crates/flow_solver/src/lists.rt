ghost use Rattle.std.specs.Prelude.{◌≡◌, ◌++◌, [], ◌∷◌, if◌then◌else◌, OnOk};
ghost use Rattle.flow_solver.specs.code.Lists.{listed as items_of};

use hy_terms::Memory;
use indexmap::IndexMap;
use sqlite_items::Items;
use std::alloc::Global;
use std::hash::Hash;

/// The items under a key.
pub fn listed<K: Eq + Hash + Copy, V>(lists: &IndexMap<K, Items<V>>, key: K) -> &[V]
    ensures { result.now ≡ items_of K.eq lists.now key }
{
    match lists.get(&key) {
        Some(list) => list.as_slice(),
        None => &[],
    }
}

/// Puts an item behind those under a key.
pub fn push<K: Eq + Hash + Copy + Drop, V: Drop>(
    alloc: Global,
    lists: &mut IndexMap<K, Items<V>>,
    key: K,
    item: V,
) -> Result<(), Memory>
    ensures { OnOk result ((q : K) → items_of K.eq lists.new q
        ≡ (if K.eq key q then items_of K.eq lists.old q ++ item ∷ []
        else items_of K.eq lists.old q)) }
{
    if let Some(list) = lists.get_mut(&key) {
        list.push(item)?;
        return Ok(());
    }
    let mut list = Items::new(alloc);
    list.push(item)?;
    lists.insert(key, list)?;
    Ok(())
}
