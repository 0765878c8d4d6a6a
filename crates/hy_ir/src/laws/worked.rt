ghost use Rattle.hy_ir.specs.SmallCodes.{SmallCodes};
ghost use Rattle.hy_ir.specs.WorkedCodes.{WorkedCodes};

/// Three small programs by their codes: the calls, private words, area words and copied words that
/// they take under each placing of their sites, and the acts of one of them in order.
pub fn codes_are_carried_out()
    ensures { WorkedCodes }
{}

/// Each form in a code of a few operations: its acts in order, its value or what it raises, and how
/// it uses inputs.
pub fn small_codes_are_carried_out()
    ensures { SmallCodes }
{}
