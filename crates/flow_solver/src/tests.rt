//! Small lists of inclusions, and what is in their least sets.

ghost use Rattle.std.specs.Prelude.{◌≡◌, true};
ghost use Rattle.flow_sets.specs.Targets.{is_many};

use crate::table::solve;
use flow_sets::{FlowSet, Inclusion, Rules};
use std::alloc::Global;
use std::test::Fail;

fn register(function: u32, register: u32) -> FlowSet
    ensures { result ≡ FlowSet.Register function register }
{
    FlowSet::Register { function, register }
}

fn field(site: u32, field: u32) -> FlowSet
    ensures { result ≡ FlowSet.Field site field }
{
    FlowSet::Field { site, field }
}

fn whole(rules: &mut Rules, from: FlowSet, to: FlowSet) -> Result<(), Fail>
    requires { is_many to ≡ true }
{
    rules.push(Inclusion::Whole { from, to })?;
    Ok(())
}

fn part(rules: &mut Rules, base: FlowSet, field: u32, to: FlowSet) -> Result<(), Fail>
    requires { is_many to ≡ true }
{
    rules.push(Inclusion::Part { base, field, to })?;
    Ok(())
}

// What stands in what is sent is sent.
fn downward(alloc: Global) -> Result<Rules, Fail> {
    let mut rules = Rules::new(alloc);
    rules.push(Inclusion::Parts {
        base: FlowSet::Sent,
        to: FlowSet::Sent,
    })?;
    Ok(rules)
}

#[test]
fn without_inclusions_no_site_is_in_any_set(rt: HostRuntime) -> Result<(), Fail> {
    let table = solve(rt.alloc(), &Rules::new(rt.alloc()))?;
    assert!(rt; !table.has(0, 0, 0));
    assert!(rt; !table.result_has(0, 0));
    assert!(rt; !table.field_has(0, 0, 0));
    assert!(rt; !table.message_has(0));
    assert!(rt; !table.sent_has(0));
    Ok(())
}

// The main function, 0, builds a state at site 0 and hands it to the loop, 1, which builds the next
// one at site 1, hands it to itself, and sends the last one.
#[test]
fn a_state_goes_round_and_is_sent(rt: HostRuntime) -> Result<(), Fail> {
    let mut rules = downward(rt.alloc())?;
    whole(&mut rules, FlowSet::Only(0), register(0, 3))?;
    whole(&mut rules, register(0, 3), register(1, 1))?;
    whole(&mut rules, FlowSet::Result(1), FlowSet::Result(0))?;
    whole(&mut rules, register(1, 1), FlowSet::Message)?;
    whole(&mut rules, register(1, 1), FlowSet::Sent)?;
    whole(&mut rules, register(1, 1), FlowSet::Result(1))?;
    whole(&mut rules, FlowSet::Only(1), register(1, 10))?;
    whole(&mut rules, register(1, 10), register(1, 1))?;
    let table = solve(rt.alloc(), &rules)?;
    for site in 0..2 {
        assert!(rt; table.has(1, 1, site));
        assert!(rt; table.result_has(0, site));
        assert!(rt; table.message_has(site));
        assert!(rt; table.sent_has(site));
        assert_eq!(rt; table.has(0, 3, site), site == 0);
        assert_eq!(rt; table.has(1, 10, site), site == 1);
    }
    assert!(rt; !table.has(1, 0, 0));
    assert!(rt; !table.sent_has(2));
    Ok(())
}

// The register 1 reads field 1 of what the register 0 holds, before anything is there. What comes,
// by a `setelement`, is in field 0.
#[test]
fn a_member_comes_late_through_a_field(rt: HostRuntime) -> Result<(), Fail> {
    let mut rules = downward(rt.alloc())?;
    part(&mut rules, register(0, 0), 1, register(0, 1))?;
    whole(&mut rules, register(0, 1), register(0, 2))?;
    whole(&mut rules, FlowSet::Only(0), register(0, 0))?;
    whole(&mut rules, register(0, 3), field(0, 0))?;
    whole(&mut rules, FlowSet::Result(1), register(0, 3))?;
    whole(&mut rules, FlowSet::Only(1), FlowSet::Result(1))?;
    let table = solve(rt.alloc(), &rules)?;
    assert!(rt; table.field_has(0, 0, 1));
    assert!(rt; !table.field_has(0, 1, 1));
    assert!(rt; table.has(0, 2, 1));
    assert!(rt; !table.has(0, 2, 0));
    assert!(rt; !table.sent_has(0) && !table.sent_has(1));
    Ok(())
}

// Conses of site 0, each with the list before it as its tail and what is built at site 1 as its
// head, are sent.
#[test]
fn a_list_is_sent_with_all_that_is_in_it(rt: HostRuntime) -> Result<(), Fail> {
    let mut rules = downward(rt.alloc())?;
    whole(&mut rules, FlowSet::Result(0), FlowSet::Sent)?;
    whole(&mut rules, FlowSet::Only(0), FlowSet::Result(0))?;
    whole(&mut rules, FlowSet::Result(0), field(0, 2))?;
    whole(&mut rules, register(0, 3), field(0, 1))?;
    whole(&mut rules, FlowSet::Only(1), register(0, 3))?;
    part(&mut rules, FlowSet::Result(0), 2, FlowSet::Result(0))?;
    let table = solve(rt.alloc(), &rules)?;
    assert!(rt; table.field_has(0, 2, 0));
    assert!(rt; table.sent_has(0));
    assert!(rt; table.sent_has(1));
    assert!(rt; !table.result_has(0, 1));
    assert!(rt; !table.message_has(0));
    Ok(())
}

// Three registers, each with a site of its own, flow into one, of which three read a field each.
#[test]
fn each_field_of_each_site_is_read(rt: HostRuntime) -> Result<(), Fail> {
    let mut rules = downward(rt.alloc())?;
    for number in 0..3 {
        whole(&mut rules, FlowSet::Only(number), register(0, number))?;
        whole(&mut rules, register(0, number), register(1, 0))?;
        whole(
            &mut rules,
            FlowSet::Only(number + 10),
            field(number, number + 1),
        )?;
        part(&mut rules, register(1, 0), number + 1, register(2, number))?;
    }
    let table = solve(rt.alloc(), &rules)?;
    for number in 0..3 {
        assert!(rt; table.has(1, 0, number));
        for other in 0..3 {
            assert_eq!(rt; table.has(2, number, other + 10), number == other);
        }
    }
    Ok(())
}
