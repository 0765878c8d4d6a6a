use hy_core::RefusalKind;
use std::alloc::AllocError;

/// Why a token isn't taken.
#[derive(Clone, Copy, Debug, PartialEq, Eq)]
pub enum StepFault {
    Refused(RefusalKind),
    /// Want of memory.
    Memory,
}

impl From<AllocError> for StepFault {
    ghost use Rattle.std.specs.Prelude.{◌≡◌};
    ghost use Rattle.core_build.specs.declared.fault.StepFault.TheVariants.{Memory};

    ghost from_gives = { λ _ e. e ≡ Memory };

    fn from(_error: AllocError) -> StepFault {
        StepFault::Memory
    }
}

/// A token that no module has there.
pub const UNEXPECTED: StepFault = StepFault::Refused(RefusalKind::Unexpected);
