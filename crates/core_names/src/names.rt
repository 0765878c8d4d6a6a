ghost use Rattle.std.specs.Prelude.{◌≡◌};
ghost use Rattle.hy_terms.specs.Naming.{text_of};
ghost use Rattle.hy_core.specs.Resolve.{is_match_fail as names_match_fail};

use hy_core::Module;

/// Whether a primop is `match_fail` with one argument.
pub fn is_match_fail(names: &Module, name: u32, arity: usize) -> bool
    ensures { result ≡ names_match_fail (text_of names.now.atoms name) arity }
{
    names.atoms.text_of(name) == b"match_fail".as_slice() && arity == 1
}
