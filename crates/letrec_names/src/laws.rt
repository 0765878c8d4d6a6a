//! Laws of the numbers of functions. The function does nothing: its clauses are the laws.

ghost use Rattle.letrec_names.specs.CountsGiven.{CountsAreGiven, NumbersAreGiven};

/// The counts of a program tell of each function of a letrec in it how many stand in its body; by
/// such counts the functions of a letrec have their own numbers.
pub fn numbers_are_given()
    ensures counts { CountsAreGiven }
    ensures numbers { NumbersAreGiven }
{}
