ghost use Rattle.hy_core.specs.WorkedBuiltIns.{
  EachComparison,
  TruthTables,
  EachKindOfEach,
  EachNameOnce,
};
ghost use Rattle.hy_core.specs.WorkedOutcomes.{ExitOutcome, StopOutcomes, ChildHasArguments};
ghost use Rattle.hy_core.specs.WorkedPatterns.{PatternsMatch, InnermostBindings};

/// Each built-in by its name: each of `=:= == =/= /= < > =< >=` at a first argument that is less, equal
/// and greater; `and`, `or`, `xor` and `not` at all truth values; each test of a kind at a term of each
/// kind; and each other name once.
pub fn built_ins_have_names()
    ensures comparisons { EachComparison }
    ensures truths { TruthTables }
    ensures kinds { EachKindOfEach }
    ensures others { EachNameOnce }
{}

/// What matches and what doesn't, by tuples, lists, strings and aliases, and what is bound. A name stands
/// for its innermost binding around the place where it stands, and the functions of a `letrec` go before
/// those of the module.
pub fn patterns_and_names_bind()
    ensures patterns { PatternsMatch }
    ensures innermost { InnermostBindings }
{}

/// How an exit and each cause of a stop is written.
pub fn outcomes_are_written()
    ensures exit { ExitOutcome }
    ensures stops { StopOutcomes }
{}

/// A process that is spawned begins with the arguments of the spawn.
pub fn child_has_arguments()
    ensures { ChildHasArguments }
{}
