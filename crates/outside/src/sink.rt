ghost use Rattle.std.specs.Prelude.{◌≡◌, ◌≤◌, List, ℕ, Option, OnOk, OnErr};
ghost use Rattle.outside.specs.Outside.{Appends, AppendsPrefix, Rises};

/// A write that failed.
#[derive(Clone, Copy, Debug, PartialEq, Eq)]
pub struct Failed;

/// Where bytes go.
pub trait Sink {
    /// The bytes written so far, where the sink tells them.
    ghost written: { Self → Option (List ℕ) };

    /// How often it has failed.
    ghost faults: { Self → ℕ };

    /// Writes a piece at the end. A write that failed has written a first part of the piece.
    fn write(&mut self, piece: &[u8]) -> Result<(), Failed>
        ensures ok { OnOk result (Appends (written self.old) (written self.new) piece.now) }
        ensures prefix { OnErr result
            (AppendsPrefix (written self.old) (written self.new) piece.now) }
        ensures failed { OnErr result (Rises (faults self.old) (faults self.new)) }
        ensures counts { faults self.old ≤ faults self.new };
}
