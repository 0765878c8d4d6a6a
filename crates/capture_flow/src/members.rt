ghost use Rattle.std.specs.Prelude.{◌≡◌, fold, OnOk};
ghost use Rattle.capture_flow.specs.code.Members.{passed, seeded};

use crate::fact::{Edge, Fact, Member};
use hy_terms::Memory;
use indexmap::IndexSet;

// Adds the member of a fact, where it has one. A new one goes last.
fn seed(members: &mut IndexSet<Member>, fact: &Fact) -> Result<(), Memory>
    ensures { OnOk result (members.new.keys ≡ seeded members.old.keys fact.now) }
{
    if let Fact::Occurs(member) = fact {
        members.insert(*member)?;
    }
    Ok(())
}

/// Adds the members of facts.
pub fn seed_all(members: &mut IndexSet<Member>, facts: &[Fact]) -> Result<(), Memory>
    ensures { OnOk result (members.new.keys ≡ fold seeded members.old.keys facts.now) }
{
    for fact in facts {
        seed(members, fact)?;
    }
    Ok(())
}

// Adds what a function has by a member of one that it uses.
fn pass(members: &mut IndexSet<Member>, member: Member, edge: Edge) -> Result<(), Memory>
    ensures { OnOk result (members.new.keys ≡ passed member members.old.keys edge) }
{
    if member.place <= edge.depth {
        members.insert(Member {
            function: edge.function,
            variable: member.variable,
            place: member.place,
        })?;
    }
    Ok(())
}

/// Adds what functions have by a member of one that they use.
pub fn carry(members: &mut IndexSet<Member>, edges: &[Edge], member: Member) -> Result<(), Memory>
    ensures { OnOk result (members.new.keys ≡ fold (passed member) members.old.keys edges.now) }
{
    for edge in edges {
        pass(members, member, *edge)?;
    }
    Ok(())
}
