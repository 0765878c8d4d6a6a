ghost use Rattle.std.specs.Prelude.{◌+◌, ◌≡◌, IfErr, IfOk, MatchResult, false, nat_lt, true};
ghost use Rattle.hy_core.specs.declared.refusal.RefusalKind.TheVariants.{TooDeep as DeepKind};
ghost use Rattle.core_build.specs.declared.fault.StepFault.TheVariants.{Memory, Refused};

use crate::goal::LEVELS;
use core_build::StepFault;
use hy_core::RefusalKind;

/// The level of what stands inside a construct of this level, which may have 400.
pub fn inside(level: u32) -> Result<u32, StepFault>
    ensures { MatchResult result (λ n. (nat_lt 400 level ≡ false) × (n ≡ level + 1))
        (λ e. (nat_lt 400 level ≡ true) × (e ≡ Refused DeepKind)) }
{
    if level > LEVELS {
        Err(StepFault::Refused(RefusalKind::TooDeep))
    } else {
        Ok(level + 1)
    }
}

/// The level inside a construct that was begun. Its level was looked at then, so this is at most
/// 401, and the last answer doesn't come.
pub fn deeper(level: u32) -> Result<u32, StepFault>
    ensures ok { IfOk result (λ n. n ≡ level + 1) }
    ensures memory { IfErr result (λ e. e ≡ Memory) }
{
    level.checked_add(1).ok_or(StepFault::Memory)
}
