ghost use Rattle.std.specs.Prelude.{◌≡◌, ◌++◌, replicate, OnOk};

use hy_terms::Memory;

/// Appends so many times the same.
pub fn push_same<T: Copy>(items: &mut Vec<T>, item: T, times: usize) -> Result<(), Memory>
    ensures { OnOk result (items.new.items ≡ items.old.items ++ replicate times item) }
{
    for k in 0..times {
        items.push(item)?;
    }
    Ok(())
}
