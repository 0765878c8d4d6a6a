ghost use Rattle.std.specs.Prelude.{◌≡◌, IfErr, IfOk};
ghost use Rattle.hy_terms.specs.Naming.{named};
ghost use Rattle.core_build.specs.declared.fault.StepFault.TheVariants.{Memory};

use core_build::StepFault;
use hy_terms::Atoms;

/// The number of a text in a table.
pub fn number_of(table: &mut Atoms, text: &[u8]) -> Result<u32, StepFault>
    ensures ok { IfOk result (λ n. named table.old text.now ≡ (n, table.new)) }
    ensures memory { IfErr result (λ e. e ≡ Memory) }
{
    // A text of 2^20 bytes has fewer names than a table holds, so the table is never full.
    table.intern(text).map_err(|_| StepFault::Memory)
}
