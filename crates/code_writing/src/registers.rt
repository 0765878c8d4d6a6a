ghost use Rattle.std.specs.Prelude.{◌≡◌, ◌+◌, ◌≤◌, IfOk, OnOk, drop};
ghost use Rattle.lowered_code.specs.Builder.{first, registers_from};

use hy_terms::Memory;
use sqlite_items::Items;
use std::alloc::Global;

/// The next register. `Memory` where there are 2^32 - 1 of them.
pub fn fresh(next: &mut u32) -> Result<u32, Memory>
    ensures out { IfOk result (λ out. out ≡ next.old) }
    ensures next { OnOk result (next.new ≡ next.old + 1) }
{
    let out = *next;
    *next = out.checked_add(1).ok_or(Memory)?;
    Ok(out)
}

/// So many registers, one after another.
#[tactic(auto, using(crate::proofs::RegisterLemmas::registers_more))]
pub fn fresh_all(alloc: Global, next: &mut u32, count: usize) -> Result<Items<u32>, Memory>
    ensures outs { IfOk result (λ outs. outs ≡ registers_from next.old count) }
    ensures next { OnOk result (next.new ≡ next.old + count) }
    ensures room { OnOk result (next.old + count ≤ 4294967295) }
{
    let room = u32::MAX - *next;
    if count > room as usize {
        return Err(Memory);
    }
    let mut outs = Items::new(alloc);
    for _place in 0..count {
        outs.push(fresh(next)?)?;
    }
    Ok(outs)
}

/// The register at a place, and 0 where there is none.
pub fn register_at(registers: &[u32], place: usize) -> u32
    ensures { result ≡ first (drop place registers.now) }
{
    match registers.get(place) {
        Some(register) => *register,
        None => 0,
    }
}

/// The registers of so many parameters.
pub fn parameter_registers(alloc: Global, count: u32) -> Result<Items<u32>, Memory>
    ensures { IfOk result (λ registers. registers ≡ registers_from 0 count) }
{
    let mut next = 0;
    fresh_all(alloc, &mut next, count as usize)
}
