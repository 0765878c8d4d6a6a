//! Laws of the inclusions of a code. Each function does nothing: its clause is the law.

ghost use Rattle.flow_rules.specs.WorkedFlow.{WorkedFlow};
ghost use Rattle.flow_rules.specs.WorkedInclusions.{WorkedInclusions};

/// The inclusions of a program whose state is passed round, each written out, and those of the
/// other forms.
pub fn inclusions_by_examples()
    ensures { WorkedInclusions }
{}

/// The flow of the program whose state is passed round: each site in each set, and no other.
pub fn flow_by_example()
    ensures { WorkedFlow }
{}
