ghost use Rattle.std.specs.Prelude.{ℕ, List};
ghost use Rattle.hy_terms.specs.Term.{Term};
ghost use Rattle.hy_core.specs.Match.{Env};
ghost use Rattle.hy_core.specs.MatchLaws.{MatchingFillsIn, GuardHolds, AcceptsByClause};
ghost use Rattle.hy_core.specs.Resolved.{Patterns};

/// Matching inverts filling in: patterns match exactly where they can be filled in so that they are the
/// values, and then their variables are bound to what fills them in. Nothing else is bound anew.
pub fn matching_fills_patterns_in()
    ensures { (ps : Patterns) (ts : List Term) (env : Env) → MatchingFillsIn ps ts env }
{}

/// A guard holds exactly where it evaluates to `'true'`, without a call, an event or an input. A
/// `receive` accepts a message exactly where the patterns of some clause match it and the guard of that
/// clause gives `'true'`.
pub fn clauses_hold_by_guards()
    ensures guards { (atoms : List (List ℕ)) (pid : ℕ) → GuardHolds atoms pid }
    ensures messages { (atoms : List (List ℕ)) (pid : ℕ) → AcceptsByClause atoms pid }
{}
