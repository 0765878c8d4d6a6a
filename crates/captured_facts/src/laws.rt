//! Laws of the facts of programs. The function does nothing: its clause is the law.

ghost use Rattle.captured_facts.specs.FactsLaws.{FactsAreExact, FactsAreOfBareTrees};

/// A variable is free in a function of a letrec exactly where the function has it by the facts of
/// the program. The facts don't depend on the numbers of events and sites.
pub fn facts_are_exact()
    ensures exact { FactsAreExact }
    ensures bare { FactsAreOfBareTrees }
{}
