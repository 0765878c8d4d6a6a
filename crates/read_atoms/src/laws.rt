//! Laws of the atoms in what is read. The function does nothing: its clauses are the laws.

ghost use Rattle.read_atoms.specs.AtomLaws.{LintedKeepTexts, ReadHaveOwnAtoms};

/// Each atom that a module of a text names stands in the module's own table. So the modules that
/// the linter numbers, which are read or of the prelude, keep their canonical texts: over the
/// program's table each has the text of the given one over its own.
pub fn read_modules_have_their_atoms()
    ensures atoms { ReadHaveOwnAtoms }
    ensures texts { LintedKeepTexts }
{}
