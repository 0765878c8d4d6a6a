ghost use Rattle.std.specs.Prelude.{◌≡◌, ◌++◌, ◌∷◌, [], true, OnOk};
ghost use Rattle.std.specs.List.{list_all};
ghost use Rattle.flow_sets.specs.Targets.{goes_to_many};

use crate::inclusion::Inclusion;
use hy_terms::Memory;
use sqlite_items::Items;
use std::alloc::Global;

/// Inclusions, in any order. None of them is into a set of one site.
#[derive(Debug, Drop)]
pub struct Rules {
    pub items: Items<Inclusion>,
    ghost many: { list_all goes_to_many items ≡ true },
}

impl Rules {
    /// No inclusions.
    pub fn new(alloc: Global) -> Rules
        ensures { result.items ≡ [] }
    {
        Rules {
            items: Items::new(alloc),
        }
    }

    /// Puts an inclusion behind the others.
    pub fn push(&mut self, rule: Inclusion) -> Result<(), Memory>
        requires { goes_to_many rule ≡ true }
        ensures { OnOk result (self.new.items ≡ self.old.items ++ rule ∷ []) }
    {
        self.items.push(rule)?;
        Ok(())
    }
}
