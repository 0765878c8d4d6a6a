ghost use Rattle.std.specs.Prelude.{◌≡◌};
ghost use Rattle.hy_ir.specs.Arity.{bif_arity};

use hy_core::Bif;

/// The number of arguments that a built-in takes.
pub fn arity(bif: Bif) -> usize
    ensures { result ≡ bif_arity bif }
{
    match bif {
        Bif::SelfPid => 0,
        Bif::Neg
        | Bif::Abs
        | Bif::Not
        | Bif::IsInteger
        | Bif::IsNumber
        | Bif::IsAtom
        | Bif::IsBoolean
        | Bif::IsPid
        | Bif::IsList
        | Bif::IsTuple
        | Bif::TupleSize
        | Bif::Hd
        | Bif::Tl
        | Bif::Length => 1,
        _ => 2,
    }
}
