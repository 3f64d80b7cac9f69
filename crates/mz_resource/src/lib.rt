//! Why a program with a derivation is safe: the ownership invariant and its laws.
//!
//! A holding gives each thread its share of what is known. The invariant says that each share means what it says of the
//! configuration, and that each mutable block and each held lock has one owner. `specs/Held.antt` has it, from
//! `specs/Meaning.antt`, `specs/Frames.antt` and `specs/Owners.antt`. The laws are empty functions: their contracts hold for
//! every program, with no premise but that it was read and has a derivation.
#![tactic(auto)]

mod examples;
mod laws;

pub use examples::{doubling_is_safe, lacking_is_not_safe, sharing_is_safe};
pub use laws::{held_is_fine, keeps_command, keeps_view, opening_is_held, sound};
