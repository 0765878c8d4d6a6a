//! Laws of the code that lowering makes. Each function does nothing: its clause is the law.

ghost use Rattle.lowered_code.specs.AcceptedLowering.{AcceptedProgramsAreLowered};
ghost use Rattle.lowered_code.specs.LoweringLaws.{LoweredIsCode, LoweredIsValid, LoweredMeans};
ghost use Rattle.lowered_code.specs.LoweringLaws.{RegistersAreInOrder};
ghost use Rattle.lowered_code.specs.NeededRegisters.{RegistersAreNeeded};
ghost use Rattle.lowered_code.specs.WorkedLowering.{FunctionsAreLowered};

/// The code that lowering makes of a program is a code of it, where the program is known, without a
/// `letrec`, and its sites stand in the table.
pub fn lowered_is_code()
    ensures { LoweredIsCode }
{}

/// So it means what the program means, labels dropped, under each placing of its sites.
pub fn lowered_means()
    ensures { LoweredMeans }
{}

/// What an accepted program is lifted to is lowerable. Its code, with the program's own tables, is
/// a code of the program, and means what the program means.
pub fn accepted_programs_are_lowered()
    ensures { AcceptedProgramsAreLowered }
{}

/// It is valid where the program is within the limits of an engine: at most 65,535 functions and
/// 2^20 sites, numbers in their range, tuples of at most 2^20 parts, strings of 1 to 2^20 bytes,
/// and at most 255 arguments of a `spawn`.
pub fn lowered_is_valid()
    ensures { LoweredIsValid }
{}

/// A function has the registers that are its parameters or are written, each at one place, in the
/// order in which they are written, and no others.
pub fn registers_are_in_order()
    ensures { RegistersAreInOrder }
{}

/// These are as many as its parameters and what its body needs: one for each value but those of
/// variables, each cons of a list notation, each out of a test and of an inner tree, and each
/// message.
pub fn registers_are_needed()
    ensures { RegistersAreNeeded }
{}

/// Small functions and the code that lowering makes of them.
pub fn lowering_by_examples()
    ensures { FunctionsAreLowered }
{}
