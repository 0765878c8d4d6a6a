ghost use Rattle.std.specs.Prelude.{ℕ, List};
ghost use Rattle.hy_terms.specs.Term.{Term};
ghost use Rattle.hy_core.specs.ArgumentLaws.{AnswersItsArguments};
ghost use Rattle.hy_core.specs.TermComparisonLaws.{ComparesByOrder};
ghost use Rattle.hy_core.specs.BuiltInTable.{
  NumbersAreComputed,
  TruthsAreComputed,
  KindsAreTested,
  PartsAreFound,
  TermsAreCompared,
  EqualIsSame,
};
ghost use Rattle.hy_core.specs.RangeLaws.{KeepToRange};

/// Arithmetic, with the reasons `badarith`, `badarg` and `system_limit`.
pub fn numbers_are_computed()
    ensures { NumbersAreComputed }
{}

/// `and`, `or`, `xor` and `not` look at all their arguments.
pub fn truths_are_computed()
    ensures { TruthsAreComputed }
{}

/// The tests of a term's kind.
pub fn kinds_are_tested()
    ensures { KindsAreTested }
{}

/// Parts of tuples and lists, a list's length, and a process's own pid.
pub fn parts_are_found()
    ensures { PartsAreFound }
{}

/// Comparisons go by the order of terms. `==` is `=:=`.
pub fn terms_are_compared()
    ensures by_order { TermsAreCompared }
    ensures equal { EqualIsSame }
{}

/// Each comparison gives `'true'` exactly at the orders of its arguments that it names, and else
/// `'false'`.
pub fn comparisons_go_by_order()
    ensures { (atoms : List (List ℕ)) (pid : ℕ) (t u : Term) → ComparesByOrder atoms pid t u }
{}

/// A call that is resolved as a built-in has an answer; with another number of arguments than its name
/// is looked up with, a built-in has none. Where the arguments keep to the range of numbers, so does the
/// value; of `length` and `tuple_size` this is said where the length or the size is in the range.
pub fn built_ins_keep_to_arity_and_range()
    ensures arity { (atoms : List (List ℕ)) (pid : ℕ) → AnswersItsArguments atoms pid }
    ensures range { (atoms : List (List ℕ)) (pid : ℕ) → KeepToRange atoms pid }
{}
