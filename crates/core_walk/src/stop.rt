use hy_core::Form;
use hy_terms::Memory;

/// A node at which a check fails, and the form that it has.
#[derive(Clone, Copy, Debug, PartialEq, Eq)]
pub struct Found {
    pub node: u32,
    pub form: Form,
}

/// What ends a walk before its last node.
#[derive(Clone, Copy, Debug, PartialEq, Eq)]
pub enum Stop {
    Found(Found),
    Memory,
}

impl From<Memory> for Stop {
    ghost use Rattle.std.specs.Prelude.{◌≡◌};
    ghost use Rattle.core_walk.specs.declared.stop.Stop.TheVariants as stop;

    ghost from_gives = { λ _ s. s ≡ stop.Memory };

    fn from(_error: Memory) -> Stop {
        Stop::Memory
    }
}
