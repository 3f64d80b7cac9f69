//! Why a derivation is refused.
use mz_tree::{Memory, Place};
use thiserror::Error;

/// Why a derivation isn't one of the program: the first point, in the order of its scripts, without an instance.
#[derive(Clone, Copy, Debug, PartialEq, Eq, Error)]
pub enum DerivFault {
    /// A view step has no instance. It is step number `step`, from 1, since the last command of its body, for the command
    /// at `place`, or for the body's end at the closing brace.
    #[error("view step {step} before {place} has no instance")]
    BadStep { place: Place, step: u64 },
    /// The command at this place has no instance, or has other cases or another join than it must have, or its item is
    /// missing. At a body's closing brace: a script has an item for a command too many, or the body is a function's and
    /// its end lacks a permission that it owes.
    #[error("no instance of the command or end at {place}")]
    BadCommand { place: Place },
    /// At a command's place: its join names what isn't known outside of its branches. At a branch's closing brace: the
    /// branch's end lacks a permission of the join.
    #[error("join not reached, or not of outer names, at {place}")]
    BadJoin { place: Place },
    /// Memory is wanting.
    #[error("not enough memory to check the derivation")]
    Memory,
}

impl From<Memory> for DerivFault {
    ghost use Rattle.std.specs.Prelude.{◌≡◌};
    ghost use Rattle.mz_deriv.specs.declared.fault.DerivFault.TheVariants.{Memory as MemoryFault};

    ghost from_gives = { λ _ fault. fault ≡ MemoryFault };

    fn from(_: Memory) -> Self {
        DerivFault::Memory
    }
}
