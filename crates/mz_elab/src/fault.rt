//! Why no derivation is found.
use mz_tree::{Atom, Memory, Place};

/// Why the guided rules find no derivation.
#[derive(Drop)]
pub enum ElabFault {
    /// At this place a command, the end of a branch or the end of a function needs this permission, and the rules don't
    /// find it.
    NoPermission { place: Place, atom: Atom },
    /// Memory is wanting.
    Memory,
}

impl From<Memory> for ElabFault {
    ghost use Rattle.std.specs.Prelude.{◌≡◌};
    ghost use Rattle.mz_elab.specs.declared.fault.ElabFault.TheVariants.{Memory as MemoryFault};

    ghost from_gives = { λ _ fault. fault ≡ MemoryFault };

    fn from(_: Memory) -> Self {
        ElabFault::Memory
    }
}
