ghost use Rattle.std.specs.Prelude.{◌≡◌, OnOk};
ghost use Rattle.flow_solver.specs.code.Members.{Adds, AddsEach};

use flow_sets::FlowSet;
use hy_terms::Memory;
use indexmap::IndexSet;

/// A site that is in a set.
#[derive(Clone, Copy, Debug, PartialEq, Eq, Hash)]
pub struct Member {
    pub set: FlowSet,
    pub site: u32,
}

/// Adds a member. A new one goes last.
pub fn add(members: &mut IndexSet<Member>, set: FlowSet, site: u32) -> Result<(), Memory>
    ensures { OnOk result
        (Adds (record { set = set; site = site }) members.old.keys members.new.keys) }
{
    members.insert(Member { set, site })?;
    Ok(())
}

/// Adds a site to each of these sets.
pub fn add_to_each(
    members: &mut IndexSet<Member>,
    sets: &[FlowSet],
    site: u32,
) -> Result<(), Memory>
    ensures { OnOk result (AddsEach (λ set. record { set = set; site = site }) sets.now
        members.old.keys members.new.keys) }
{
    for set in sets {
        add(members, *set, site)?;
    }
    Ok(())
}

/// Adds each of these sites to a set.
pub fn add_each(members: &mut IndexSet<Member>, set: FlowSet, sites: &[u32]) -> Result<(), Memory>
    ensures { OnOk result (AddsEach (λ site. record { set = set; site = site }) sites.now
        members.old.keys members.new.keys) }
{
    for site in sites {
        add(members, set, *site)?;
    }
    Ok(())
}
