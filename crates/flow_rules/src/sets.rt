ghost use Rattle.std.specs.Prelude.{◌≡◌, ◌+◌, ◌++◌, ◌∷◌, [], true, IfOk, OnOk};
ghost use Rattle.flow_sets.specs.Targets.{is_many};

use flow_sets::{FlowSet, Inclusion, Rules};
use hy_terms::Memory;

/// The set of a register.
pub fn register(function: u32, register: u32) -> FlowSet
    ensures { result ≡ FlowSet.Register function register }
{
    FlowSet::Register { function, register }
}

/// A set is in another one.
pub fn whole(rules: &mut Rules, from: FlowSet, to: FlowSet) -> Result<(), Memory>
    requires { is_many to ≡ true }
    ensures { OnOk result (rules.new.items ≡ rules.old.items ++ Inclusion.Whole from to ∷ []) }
{
    rules.push(Inclusion::Whole { from, to })
}

/// A field of each site in a set is in another set.
pub fn part(rules: &mut Rules, base: FlowSet, field: u32, to: FlowSet) -> Result<(), Memory>
    requires { is_many to ≡ true }
    ensures { OnOk result (rules.new.items
        ≡ rules.old.items ++ Inclusion.Part base field to ∷ []) }
{
    rules.push(Inclusion::Part { base, field, to })
}

/// Every field of each site in a set is in another set.
pub fn parts(rules: &mut Rules, base: FlowSet, to: FlowSet) -> Result<(), Memory>
    requires { is_many to ≡ true }
    ensures { OnOk result (rules.new.items ≡ rules.old.items ++ Inclusion.Parts base to ∷ []) }
{
    rules.push(Inclusion::Parts { base, to })
}

/// The next number. There is none behind 2^32 - 1.
pub fn next(number: u32) -> Result<u32, Memory>
    ensures { IfOk result (λ n. n ≡ number + 1) }
{
    match number.checked_add(1) {
        Some(n) => Ok(n),
        None => Err(Memory),
    }
}
