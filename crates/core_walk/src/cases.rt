ghost use Rattle.std.specs.Prelude.{◌≡◌};
ghost use Rattle.hy_core.specs.Nodes.{patterns_of_first};

use hy_core::Clause;

/// How many values the clauses of a `case` are for.
pub fn needs_of_case(clauses: &[Clause]) -> usize
    ensures { result ≡ patterns_of_first clauses.now }
{
    match clauses {
        [] => 0,
        [first, ..] => first.patterns.len(),
    }
}
