ghost use Rattle.std.specs.Prelude.{◌≡◌, ◌++◌, ◌∷◌, [], OnOk};
ghost use Rattle.std.specs.List.{flat_map};
ghost use Rattle.hy_ir.specs.Inclusions.{bif_inclusions, operation_inclusions, test_inclusions};

use crate::lists::{from_fields, into_fields, into_params, into_sent};
use crate::sets::{part, parts, register, whole};
use flow_sets::{FlowSet, Inclusion, Rules};
use hy_core::Bif;
use hy_ir::{Op, Test};
use hy_terms::Memory;

fn bif_rules(f: u32, bif: Bif, out: u32, args: &[u32], rules: &mut Rules) -> Result<(), Memory>
    ensures { OnOk result (rules.new.items ≡ rules.old.items ++ bif_inclusions f bif out args.now) }
{
    match (bif, args) {
        (Bif::Hd, [base, ..]) => part(rules, register(f, *base), 1, register(f, out)),
        (Bif::Tl, [base, ..]) => part(rules, register(f, *base), 2, register(f, out)),
        (Bif::Element, [_, base, ..]) => parts(rules, register(f, *base), register(f, out)),
        _ => Ok(()),
    }
}

// The message is a message, is sent, and is the value.
fn send_rules(f: u32, out: u32, message: u32, rules: &mut Rules) -> Result<(), Memory>
    ensures { OnOk result (rules.new.items
        ≡ rules.old.items ++ Inclusion.Whole (FlowSet.Register f message) FlowSet.Message
        ∷ Inclusion.Whole (FlowSet.Register f message) FlowSet.Sent
        ∷ Inclusion.Whole (FlowSet.Register f message) (FlowSet.Register f out) ∷ []) }
{
    let message = register(f, message);
    whole(rules, message, FlowSet::Message)?;
    whole(rules, message, FlowSet::Sent)?;
    whole(rules, message, register(f, out))
}

/// The inclusions of an operation of this function.
pub fn operation_rules(f: u32, operation: &Op, rules: &mut Rules) -> Result<(), Memory>
    ensures { OnOk result (rules.new.items
        ≡ rules.old.items ++ operation_inclusions f operation.now) }
{
    match operation {
        Op::Move { out, from } => whole(rules, register(f, *from), register(f, *out)),
        Op::Build { site, out, args } => {
            whole(rules, FlowSet::Only(*site), register(f, *out))?;
            into_fields(f, *site, args.as_slice(), rules)
        }
        Op::Text { site, out, .. } => {
            whole(rules, FlowSet::Only(*site), register(f, *out))?;
            let site = *site;
            whole(
                rules,
                FlowSet::Only(site),
                FlowSet::Field { site, field: 2 },
            )
        }
        Op::Set {
            site,
            out,
            tuple,
            value,
            ..
        } => {
            let site = *site;
            let any = FlowSet::Field { site, field: 0 };
            whole(rules, FlowSet::Only(site), register(f, *out))?;
            whole(rules, register(f, *value), any)?;
            parts(rules, register(f, *tuple), any)
        }
        Op::Bif { out, bif, args } => bif_rules(f, *bif, *out, args.as_slice(), rules),
        Op::Call {
            out,
            function,
            args,
        } => {
            whole(rules, FlowSet::Result(*function), register(f, *out))?;
            into_params(f, *function, args.as_slice(), rules)
        }
        Op::Send { out, message, .. } => send_rules(f, *out, *message, rules),
        Op::Spawn { function, args, .. } => {
            into_params(f, *function, args.as_slice(), rules)?;
            into_sent(f, args.as_slice(), rules)
        }
        Op::Const { .. } | Op::Show { .. } => Ok(()),
    }
}

/// The inclusions of a test of this function.
pub fn test_rules(f: u32, test: &Test, rules: &mut Rules) -> Result<(), Memory>
    ensures { OnOk result (rules.new.items ≡ rules.old.items ++ test_inclusions f test.now) }
{
    match test {
        Test::Bind { out, from } => whole(rules, register(f, *from), register(f, *out)),
        Test::IsTuple { from, outs, .. } => from_fields(f, *from, outs.as_slice(), rules),
        Test::IsCons { from, head, tail } => {
            part(rules, register(f, *from), 1, register(f, *head))?;
            part(rules, register(f, *from), 2, register(f, *tail))
        }
        _ => Ok(()),
    }
}

/// The inclusions of operations, one after another.
pub fn operations_rules(f: u32, operations: &[Op], rules: &mut Rules) -> Result<(), Memory>
    ensures { OnOk result (rules.new.items
        ≡ rules.old.items ++ flat_map (operation_inclusions f) operations.now) }
{
    for operation in operations {
        operation_rules(f, operation, rules)?;
    }
    Ok(())
}

/// The inclusions of tests, one after another.
pub fn tests_rules(f: u32, tests: &[Test], rules: &mut Rules) -> Result<(), Memory>
    ensures { OnOk result (rules.new.items
        ≡ rules.old.items ++ flat_map (test_inclusions f) tests.now) }
{
    for test in tests {
        test_rules(f, test, rules)?;
    }
    Ok(())
}
