ghost use Rattle.std.specs.Prelude.{◌≡◌, ◌≤◌, List, ℕ, Option, length, IfOk, IfSome, IsErrOf};
ghost use Rattle.outside.specs.Outside.{first_bytes, Rises, read_limit};

use std::alloc::Global;
use thiserror::Error;

/// A source reads one byte more than a text may have, so that a text which is too long shows.
pub(crate) const READ_LIMIT: usize = (1 << 20) + 1;

/// Why a source gave no text.
#[derive(Clone, Copy, Debug, PartialEq, Eq, Error)]
pub enum SourceFault {
    /// The source failed, and its count for the name rose.
    #[error("Failed")]
    Failed,
    #[error("Memory")]
    Memory,
}

/// Texts by their names.
pub trait Sources {
    /// The text of a name, where the source tells it.
    ghost told: { Self → List ℕ → Option (List ℕ) };

    /// How often a name has failed.
    ghost faults: { Self → List ℕ → ℕ };

    /// Reads the text of a name, or its first 2^20 + 1 bytes where it is longer.
    /// Whatever the answer, the texts are as they were.
    fn read(&mut self, alloc: Global, name: &str) -> Result<Vec<u8>, SourceFault>
        ensures text { IfOk result (λ text. IfSome (told self.old name.now)
            (λ whole. text.items ≡ first_bytes whole)) }
        ensures within { IfOk result (λ text. length text.items ≤ read_limit) }
        ensures failed { IsErrOf result SourceFault.Failed → Rises (faults self.old name.now)
            (faults self.new name.now) }
        ensures counts { (other : List ℕ) → faults self.old other ≤ faults self.new other }
        ensures same { (other : List ℕ) → told self.new other ≡ told self.old other };
}
