ghost use Rattle.std.specs.Prelude.{true, ◌≡◌, ◌↔◌, ◌++◌, ℕ, map, Contains, IfOk, OnOk};
ghost use Rattle.std.specs.List.{list_all};
ghost use Rattle.flow_sets.specs.Least.{Flows};
ghost use Rattle.flow_sets.specs.Targets.{is_many};
ghost use Rattle.flow_sets.specs.declared.inclusion.FlowSet.{FlowSet as ASet};
ghost use Rattle.hy_ir.specs.Inclusions.{
  FlowOf,
  arms_inclusions,
  code_inclusions,
  last_inclusions,
  part_inclusions,
  parts_inclusions,
  tree_inclusions,
};
ghost use Rattle.hy_ir.specs.View.{arm_of, arms_in, code_of, last_of, part_of, parts_in, tree_of};

use crate::lists::{into_params, into_sets, registers_of};
use crate::operations::{operation_rules, operations_rules, tests_rules};
use crate::sets::{next, parts, register, whole};
use flow_sets::{FlowSet, Rules};
use hy_ir::{Arm, Code, Last, Part, Tree};
use hy_terms::Memory;
use std::alloc::Global;

// A tree whose values go into these sets.
#[cycle(walk)]
fn tree_rules(
    alloc: Global,
    f: u32,
    tree: &Tree,
    goes: &[FlowSet],
    rules: &mut Rules,
) -> Result<(), Memory>
    requires { list_all is_many goes.now ≡ true }
    ensures { OnOk result (rules.new.items
        ≡ rules.old.items ++ tree_inclusions f (tree_of tree.now) goes.now) }
{
    parts_rules(alloc, f, tree.parts.as_slice(), rules)?;
    last_rules(alloc, f, &tree.last, goes, rules)
}

#[cycle(walk)]
fn parts_rules(alloc: Global, f: u32, parts: &[Part], rules: &mut Rules) -> Result<(), Memory>
    ensures { OnOk result (rules.new.items
        ≡ rules.old.items ++ parts_inclusions f (parts_in (map part_of parts.now))) }
{
    for part in parts {
        part_rules(alloc, f, part, rules)?;
    }
    Ok(())
}

#[cycle(walk)]
fn part_rules(alloc: Global, f: u32, part: &Part, rules: &mut Rules) -> Result<(), Memory>
    ensures { OnOk result (rules.new.items
        ≡ rules.old.items ++ part_inclusions f (part_of part.now)) }
{
    match part {
        Part::Do(operation) => operation_rules(f, operation, rules),
        Part::Within { outs, inner } => {
            let sets = registers_of(alloc, f, outs.as_slice())?;
            tree_rules(alloc, f, inner, sets.as_slice(), rules)
        }
    }
}

#[cycle(walk)]
fn last_rules(
    alloc: Global,
    f: u32,
    last: &Last,
    goes: &[FlowSet],
    rules: &mut Rules,
) -> Result<(), Memory>
    requires { list_all is_many goes.now ≡ true }
    ensures { OnOk result (rules.new.items
        ≡ rules.old.items ++ last_inclusions f (last_of last.now) goes.now) }
{
    match last {
        Last::Give(registers) => into_sets(f, registers.as_slice(), goes, rules),
        Last::Tail { function, args } => {
            whole(rules, FlowSet::Result(*function), FlowSet::Result(f))?;
            into_params(f, *function, args.as_slice(), rules)
        }
        Last::Raise { .. } | Last::Fail { .. } => Ok(()),
        Last::Choose { arms } => arms_rules(alloc, f, arms.as_slice(), goes, rules),
        Last::Receive {
            message,
            arms,
            lapse,
        } => {
            whole(rules, FlowSet::Message, register(f, *message))?;
            arms_rules(alloc, f, arms.as_slice(), goes, rules)?;
            match lapse {
                Some(tree) => tree_rules(alloc, f, tree.get(), goes, rules),
                None => Ok(()),
            }
        }
    }
}

#[cycle(walk)]
fn arms_rules(
    alloc: Global,
    f: u32,
    arms: &[Arm],
    goes: &[FlowSet],
    rules: &mut Rules,
) -> Result<(), Memory>
    requires { list_all is_many goes.now ≡ true }
    ensures { OnOk result (rules.new.items
        ≡ rules.old.items ++ arms_inclusions f (arms_in (map arm_of arms.now)) goes.now) }
{
    for arm in arms {
        tests_rules(f, arm.tests.as_slice(), rules)?;
        operations_rules(f, arm.guard.operations.as_slice(), rules)?;
        tree_rules(alloc, f, &arm.body, goes, rules)?;
    }
    Ok(())
}

/// The inclusions that a code gives: each form its own, in the order of the text. Time and memory
/// are linear in the size of the code, and the recursion is as deep as the code is nested.
pub fn rules(alloc: Global, code: &Code) -> Result<Rules, Memory>
    ensures exact { IfOk result (λ rules.
        rules.items ≡ code_inclusions (code_of code.now).functions) }
    ensures flow { IfOk result (λ rules. (X : ASet) (s : ℕ)
        → Flows (Contains rules.items) X s ↔ FlowOf (code_of code.now).functions X s) }
{
    let mut rules = Rules::new(alloc);
    parts(&mut rules, FlowSet::Sent, FlowSet::Sent)?;
    let mut f = 0;
    for function in code.functions.as_slice() {
        let goes = [FlowSet::Result(f)];
        tree_rules(alloc, f, &function.body, goes.as_slice(), &mut rules)?;
        f = next(f)?;
    }
    Ok(rules)
}
