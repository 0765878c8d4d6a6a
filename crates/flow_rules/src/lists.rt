ghost use Rattle.std.specs.Prelude.{◌≡◌, ◌++◌, true, IfOk, OnOk};
ghost use Rattle.std.specs.List.{list_all};
ghost use Rattle.flow_sets.specs.Targets.{is_many};
ghost use Rattle.hy_ir.specs.Inclusions.{
  from_fields as fields_from,
  into_fields as fields_into,
  into_params as params_into,
  into_sent as sent_into,
  into_sets as sets_into,
  registers_of as registers_at,
};

use crate::sets::{next, part, register, whole};
use flow_sets::{FlowSet, Rules};
use hy_terms::Memory;
use sqlite_items::Items;
use std::alloc::Global;

/// Arguments go into the fields of a site.
pub fn into_fields(f: u32, site: u32, args: &[u32], rules: &mut Rules) -> Result<(), Memory>
    ensures { OnOk result (rules.new.items ≡ rules.old.items ++ fields_into f site 1 args.now) }
{
    let mut field = 1;
    for arg in args {
        whole(rules, register(f, *arg), FlowSet::Field { site, field })?;
        field = next(field)?;
    }
    Ok(())
}

/// Arguments go into the parameters of a function.
pub fn into_params(f: u32, function: u32, args: &[u32], rules: &mut Rules) -> Result<(), Memory>
    ensures { OnOk result (rules.new.items
        ≡ rules.old.items ++ params_into f function 0 args.now) }
{
    let mut param = 0;
    for arg in args {
        whole(rules, register(f, *arg), register(function, param))?;
        param = next(param)?;
    }
    Ok(())
}

/// Arguments are sent.
pub fn into_sent(f: u32, args: &[u32], rules: &mut Rules) -> Result<(), Memory>
    ensures { OnOk result (rules.new.items ≡ rules.old.items ++ sent_into f args.now) }
{
    for arg in args {
        whole(rules, register(f, *arg), FlowSet::Sent)?;
    }
    Ok(())
}

/// The fields of what a register holds go into registers.
pub fn from_fields(f: u32, base: u32, outs: &[u32], rules: &mut Rules) -> Result<(), Memory>
    ensures { OnOk result (rules.new.items ≡ rules.old.items ++ fields_from f base 1 outs.now) }
{
    let mut field = 1;
    for out in outs {
        part(rules, register(f, base), field, register(f, *out))?;
        field = next(field)?;
    }
    Ok(())
}

/// The sets of registers.
pub fn registers_of(alloc: Global, f: u32, registers: &[u32]) -> Result<Items<FlowSet>, Memory>
    ensures sets { IfOk result (λ sets. sets ≡ registers_at f registers.now) }
    ensures many { IfOk result (λ sets. list_all is_many sets ≡ true) }
{
    let mut sets = Items::new(alloc);
    for number in registers {
        sets.push(register(f, *number))?;
    }
    Ok(sets)
}

/// Registers go into sets, one into each.
pub fn into_sets(
    f: u32,
    registers: &[u32],
    goes: &[FlowSet],
    rules: &mut Rules,
) -> Result<(), Memory>
    requires { list_all is_many goes.now ≡ true }
    ensures { OnOk result (rules.new.items
        ≡ rules.old.items ++ sets_into f registers.now goes.now) }
{
    match registers {
        [] => Ok(()),
        [number, registers @ ..] => match goes {
            [] => Ok(()),
            [set, goes @ ..] => {
                whole(rules, register(f, *number), *set)?;
                into_sets(f, registers, goes, rules)
            }
        },
    }
}
