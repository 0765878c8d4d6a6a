//! Laws of the code of a program. Each function does nothing: its clause is the law.

ghost use Rattle.program_code.specs.CodeLaws.{
  CodeFits,
  CodeHasPieces,
  CodeMeans,
  CodeOfProgramMeans,
};
ghost use Rattle.program_code.specs.WorkedProgramCode.{LoopHasItsCode, OthersAreNoCodes};

/// A code of a lifted program means what the program means, labels dropped: under each placing of
/// its sites each function has the same events and uses of inputs in one order, as many calls and
/// the same inputs left, and the same end. Two `receive`s that wait are compared by their timeouts
/// and by what they accept.
pub fn code_means()
    ensures { CodeMeans }
{}

/// A code of a known program means what the program means.
pub fn code_of_program_means()
    ensures { CodeOfProgramMeans }
{}

/// A code does what its program asks for and nothing else. Constants, moves and what gives values
/// aside, its operations and last parts are those of the expressions: each part before its whole,
/// each once, with its site, node or function.
pub fn code_has_pieces()
    ensures { CodeHasPieces }
{}

/// In a code each inner tree gives as many values as it has outs, and no call ends it. A function
/// gives one value.
pub fn code_fits()
    ensures { CodeFits }
{}

/// A small program and its code, and codes that are none of its own, however it is lifted: with a
/// tuple that nobody reads, with a send in an arm that is never taken, and without the test that
/// binds the variable of a clause.
pub fn code_by_example()
    ensures its_code { LoopHasItsCode }
    ensures others { OthersAreNoCodes }
{}
