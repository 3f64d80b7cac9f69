//! Why reading stops. A place is told by what is left from there on, so that no reader keeps a count.
use std::alloc::AllocError;
use thiserror::Error;

/// Why bytes of a line, or lines, were not read.
#[derive(Clone, Copy, Debug, PartialEq, Eq, Error)]
pub(crate) enum Stop {
    /// At what can't stand there: by how many bytes, or lines, are left from it on, or at an end that comes too early, with
    /// 0 left.
    #[error("not lawful in its place, with {0} left")]
    Unexpected(usize),
    /// Want of memory.
    #[error("not enough memory to read the derivation")]
    Memory,
}

impl From<AllocError> for Stop {
    ghost use Rattle.std.specs.Prelude.{◌≡◌};
    ghost use Rattle.mz_script.specs.declared.read.stop.Stop.TheVariants.{Memory};

    ghost from_gives = { λ _ e. e ≡ Memory };

    fn from(_: AllocError) -> Self {
        Stop::Memory
    }
}
