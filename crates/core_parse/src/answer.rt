use hy_core::RefusalKind;
use std::alloc::AllocError;

/// Why a text is no module, and the byte at which that shows.
#[derive(Clone, Copy, Debug, PartialEq, Eq)]
pub struct Refused {
    pub kind: RefusalKind,
    pub place: u64,
}

/// Why a text has no tree.
#[derive(Clone, Copy, Debug, PartialEq, Eq)]
pub enum ReadAnswer {
    Refused(Refused),
    /// Want of memory.
    Memory,
}

impl From<AllocError> for ReadAnswer {
    ghost use Rattle.std.specs.Prelude.{◌≡◌};
    ghost use Rattle.core_parse.specs.declared.answer.ReadAnswer.TheVariants.{Memory};

    ghost from_gives = { λ _ e. e ≡ Memory };

    fn from(_error: AllocError) -> ReadAnswer {
        ReadAnswer::Memory
    }
}

/// Why tokens are no module: the kind of the refusal, and the number of tokens before it.
#[derive(Clone, Copy, Debug, PartialEq, Eq)]
pub struct RefusedToken {
    pub kind: RefusalKind,
    pub index: usize,
}

/// Why tokens have no tree.
#[derive(Clone, Copy, Debug, PartialEq, Eq)]
pub enum TokenAnswer {
    Refused(RefusedToken),
    /// Want of memory.
    Memory,
}
