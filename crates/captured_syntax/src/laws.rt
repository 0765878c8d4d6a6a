//! Laws of the facts that are gathered of syntax. The function does nothing: its clauses are the laws.

ghost use Rattle.captured_syntax.specs.GatheringLaws.{
  CountedAreAll,
  GatheredAreFacts,
  MembersAreCaptured,
};

/// What is gathered of the modules of a program are the facts of its trees, where no form of these
/// is refused; the members that functions have by these facts are what the functions capture. And
/// the functions of letrecs that are counted one part after another are all that there are.
pub fn gathered_facts_are_exact()
    ensures gathered { GatheredAreFacts }
    ensures captured { MembersAreCaptured }
    ensures counted { CountedAreAll }
{}
