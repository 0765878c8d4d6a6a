ghost use Rattle.std.specs.Prelude.{◌≡◌, true};
ghost use Rattle.hy_core.specs.declared.place.Place.TheVariants.{Anywhere, WholeGuard};

use crate::function_names::FunctionNames;
use crate::scope::Scope;
use hy_core::Place;

/// Where a walk is: the number of the next node, and what is bound around it.
#[derive(Drop)]
pub struct Position {
    pub node: u32,
    pub scope: Scope,
    pub locals: FunctionNames,
}

/// What the place of an expression asks of it.
#[derive(Clone, Copy, Debug, PartialEq, Eq)]
pub struct Demand {
    pub needs: usize,
    pub in_guard: bool,
    pub place: Place,
}

impl Demand {
    /// As many values as the whole needs.
    pub fn inside(self) -> Demand
        ensures { result ≡ record self { place = Anywhere } }
    {
        Demand {
            place: Place::Anywhere,
            ..self
        }
    }

    /// So many values.
    pub fn for_values(self, needs: usize) -> Demand
        ensures { result ≡ record self { needs = needs; place = Anywhere } }
    {
        Demand {
            needs,
            place: Place::Anywhere,
            ..self
        }
    }

    /// One value, at a place of its own kind.
    pub fn at_place(self, place: Place) -> Demand
        ensures { result ≡ record self { needs = 1; place = place } }
    {
        Demand {
            needs: 1,
            place,
            ..self
        }
    }

    /// The guard of a clause.
    pub fn guarding(self) -> Demand
        ensures { result ≡ record { needs = 1; in_guard = true; place = WholeGuard } }
    {
        Demand {
            needs: 1,
            in_guard: true,
            place: Place::WholeGuard,
        }
    }
}
