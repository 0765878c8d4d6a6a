ghost use Rattle.std.specs.Prelude.{◌≡◌, [], OnOk};
ghost use Rattle.flow_solver.specs.code.Effects.{Links, Passes, FollowsBy, PassesOn};
ghost use Rattle.flow_solver.specs.code.Carries.{Steady, Grows, Carried, Reads, AreIndexed};
ghost use Rattle.flow_sets.specs.Least.{Flows};
ghost use Rattle.flow_solver.specs.code.Tables.{state_of};
ghost use Rattle.flow_solver.specs.declared.fields.FieldSet.{FieldSet as AFieldSet};

use crate::fields::FieldSet;
use crate::lists::{listed, push};
use crate::members::{Member, add, add_each, add_to_each};
use flow_sets::{FlowSet, Inclusion};
use hy_terms::Memory;
use indexmap::{IndexMap, IndexSet};
use sqlite_items::Items;
use std::alloc::Global;

/// The members found so far, in order; the sites that were carried to each set of fields, and the
/// sets that each set of fields goes into.
#[derive(Drop)]
pub struct Work {
    pub members: IndexSet<Member>,
    pub sites: IndexMap<FieldSet, Items<u32>>,
    pub targets: IndexMap<FieldSet, Items<FlowSet>>,
}

/// No members, no sites and no sets.
pub fn begin(alloc: Global) -> Work
    ensures members { result.members.keys ≡ [] }
    ensures sites { (p : AFieldSet) → (state_of result).sites p ≡ [] }
    ensures targets { (p : AFieldSet) → (state_of result).targets p ≡ [] }
{
    Work {
        members: IndexSet::new(alloc),
        sites: IndexMap::new(alloc),
        targets: IndexMap::new(alloc),
    }
}

// From now on what is in the fields is in the set.
fn link(alloc: Global, work: &mut Work, fields: FieldSet, set: FlowSet) -> Result<(), Memory>
    ensures { OnOk result (Links fields set (state_of work.old) (state_of work.new)) }
{
    add_each(&mut work.members, set, listed(&work.sites, fields))?;
    push(alloc, &mut work.targets, fields, set)
}

// A site is in the fields.
fn pass(alloc: Global, work: &mut Work, fields: FieldSet, site: u32) -> Result<(), Memory>
    ensures { OnOk result (Passes fields site (state_of work.old) (state_of work.new)) }
{
    add_to_each(&mut work.members, listed(&work.targets, fields), site)?;
    push(alloc, &mut work.sites, fields, site)
}

// Carries a site of the set that the inclusion reads.
fn follow(alloc: Global, work: &mut Work, rule: Inclusion, site: u32) -> Result<(), Memory>
    ensures { OnOk result (FollowsBy rule site (state_of work.old) (state_of work.new)) }
{
    match rule {
        Inclusion::Whole { to, .. } => add(&mut work.members, to, site),
        Inclusion::Part { field, to, .. } => {
            link(alloc, work, FieldSet::One { site, field }, to)?;
            link(alloc, work, FieldSet::One { site, field: 0 }, to)
        }
        Inclusion::Parts { to, .. } => link(alloc, work, FieldSet::All(site), to),
    }
}

// Carries a site of a set of fields to what reads the fields.
fn pass_on(alloc: Global, work: &mut Work, member: Member) -> Result<(), Memory>
    ensures { OnOk result
        (PassesOn member.set member.site (state_of work.old) (state_of work.new)) }
{
    if let FlowSet::Field { site, field } = member.set {
        pass(alloc, work, FieldSet::One { site, field }, member.site)?;
        pass(alloc, work, FieldSet::All(site), member.site)?;
    }
    Ok(())
}

/// Carries a member on, once by each inclusion that reads its set.
pub fn carry(
    alloc: Global,
    work: &mut Work,
    readers: &IndexMap<FlowSet, Items<Inclusion>>,
    member: Member,
) -> Result<(), Memory>
    requires indexed { AreIndexed readers.now }
    requires steady { Steady (Reads readers.now) (state_of work.old) }
    requires flows { Flows (Reads readers.now) member.set member.site }
    ensures steady { OnOk result (Steady (Reads readers.now) (state_of work.new)) }
    ensures grows { OnOk result (Grows (state_of work.old) (state_of work.new)) }
    ensures carried { OnOk result (Carried readers.now (state_of work.new) member) }
{
    let rules = listed(readers, member.set);
    for rule in rules {
        follow(alloc, work, *rule, member.site)?;
    }
    pass_on(alloc, work, member)
}
