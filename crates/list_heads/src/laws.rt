//! Laws of the list notations in what is read. The function does nothing: its clauses are the laws.

ghost use Rattle.list_heads.specs.HeadLaws.{LiftedHaveHeads, ReadHaveHeads};

/// No list notation is empty in the trees of a program whose modules are those of texts, beside the
/// prelude; nor where they are renamed; nor, where that is so of a program, in its lifted trees.
pub fn list_notations_have_heads()
    ensures read { ReadHaveHeads }
    ensures lifted { LiftedHaveHeads }
{}
