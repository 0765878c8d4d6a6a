//! Laws of lifted syntax. Each function does nothing: its clause is the law.

ghost use Rattle.lifted_syntax.specs.LiftingLaws.{
  ExtractedSyntaxIsExtracted,
  KnownTreesAreWhole,
  LiftedProgramIsLifted,
  LiftedSyntaxIsLifted,
};

/// Lifted syntax, read with the numbers that its applied names hold, is the lifted tree of the
/// syntax, and so are the functions of its letrecs: where no form of the tree is refused.
pub fn lifted_syntax_is_lifted()
    ensures lifted { LiftedSyntaxIsLifted }
    ensures extracted { ExtractedSyntaxIsExtracted }
{}

/// A program whose syntax is lifted has the trees of the lifted program, numbers of events and
/// sites aside: where no form of its trees is refused. Of known trees none is.
pub fn lifted_programs_are_lifted()
    ensures lifted { LiftedProgramIsLifted }
    ensures known { KnownTreesAreWhole }
{}
