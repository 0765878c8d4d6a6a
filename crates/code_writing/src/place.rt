ghost use Rattle.std.specs.Prelude.{◌≡◌};
ghost use Rattle.code_writing.specs.Ends.{place_of};
ghost use Rattle.code_writing.specs.declared.place.Place.TheVariants.{Piece as BetweenParts};
ghost use Rattle.lowered_code.specs.Builder.{inside as inside_of};

use hy_ir::Last;

/// Where an expression stands: with more behind it, last in an inner tree, or last in a function.
#[derive(Clone, Copy, Debug, PartialEq, Eq)]
pub enum Place {
    Piece,
    Inner,
    Tail,
}

/// An expression gives values, whose registers are done, or it ends the tree.
#[derive(Drop)]
pub enum End {
    Given,
    Ended(Last),
}

/// What is asked of an expression: how many values, and where it stands.
#[derive(Clone, Copy, Debug, PartialEq, Eq)]
pub struct Aim {
    pub wanted: usize,
    pub place: Place,
}

impl Aim {
    /// So many values, with more behind them.
    pub fn piece(wanted: usize) -> Aim
        ensures { result ≡ record { wanted = wanted; place = BetweenParts } }
    {
        Aim {
            wanted,
            place: Place::Piece,
        }
    }

    /// As many values, in what ends a tree: an inner tree where more comes behind it.
    pub fn inside(self) -> Aim
        ensures wanted { result.wanted ≡ self.wanted }
        ensures place { place_of result.place ≡ inside_of (place_of self.place) }
    {
        let place = match self.place {
            Place::Tail => Place::Tail,
            Place::Piece | Place::Inner => Place::Inner,
        };
        Aim {
            wanted: self.wanted,
            place,
        }
    }
}
