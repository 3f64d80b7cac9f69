//! Why a rule isn't followed.
use mz_tree::Memory;
use thiserror::Error;

/// Why a rule doesn't change a state, which is as it was.
#[derive(Clone, Copy, Debug, PartialEq, Eq, Error)]
pub enum RuleFault {
    /// The rule has no instance in the state with what is named.
    #[error("no instance of the rule in the state")]
    NoInstance,
    /// Memory is wanting.
    #[error("not enough memory to follow the rule")]
    Memory,
}

impl From<Memory> for RuleFault {
    ghost use Rattle.std.specs.Prelude.{◌≡◌};
    ghost use Rattle.mz_modes.specs.declared.fault.RuleFault.TheVariants.{Memory as MemoryFault};

    ghost from_gives = { λ _ fault. fault ≡ MemoryFault };

    fn from(_: Memory) -> Self {
        RuleFault::Memory
    }
}
