//! Laws of programs and their faults. A function of these does nothing: its clause is the law.

ghost use Rattle.std.specs.Prelude.{◌⊎◌};
ghost use Rattle.hy_core.specs.Faults.{IsAccepted, IsLeastFault};
ghost use Rattle.hy_core.specs.declared.fault.LintFault.{LintFault};
ghost use Rattle.hy_core.specs.declared.tree.Program.{Program};

/// Each program is accepted or has a least fault.
pub fn some_verdict()
    ensures { (program : Program) →
        IsAccepted program ⊎ ((fault : LintFault) × IsLeastFault program fault) }
{}
