//! Why reading stops. A place is told by how many tokens are left from there on, so that the reader needs no count.

use std::alloc::AllocError;
use thiserror::Error;

/// Why tokens were not read.
#[derive(Clone, Copy, Debug, PartialEq, Eq, Error)]
pub enum Stop {
    /// At the first token that can't stand where it does, by how many are left from it on, or at an end that comes too
    /// early, with 0 left.
    #[error("unexpected token or end, with {0} tokens left")]
    Unexpected(usize),
    /// At the first bracket that is one too many, likewise.
    #[error("too many open brackets, with {0} tokens left")]
    TooDeep(usize),
    /// Want of memory.
    #[error("not enough memory to hold the tree of a type")]
    Memory,
}

impl From<AllocError> for Stop {
    ghost use Rattle.std.specs.Prelude.{◌≡◌};
    ghost use Rattle.mz_types.specs.declared.stop.Stop.TheVariants.{Memory};

    ghost from_gives = { λ _ e. e ≡ Memory };

    fn from(_: AllocError) -> Self {
        Stop::Memory
    }
}
