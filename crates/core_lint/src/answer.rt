use hy_core::LintFault;
use hy_terms::Memory;

/// Why a program has no tables.
#[derive(Clone, Copy, Debug, PartialEq, Eq)]
pub enum LintAnswer {
    /// The least fault that holds.
    Fault(LintFault),
    Memory,
}

impl From<Memory> for LintAnswer {
    ghost use Rattle.std.specs.Prelude.{◌≡◌};
    ghost use Rattle.core_lint.specs.declared.answer.LintAnswer.TheVariants as answer;

    ghost from_gives = { λ _ a. a ≡ answer.Memory };

    fn from(_error: Memory) -> LintAnswer {
        LintAnswer::Memory
    }
}
