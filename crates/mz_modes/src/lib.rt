//! The modes of types: which may be copied, and which are exclusive.
//!
//! `modes` refuses declarations where an `adopts` names an immutable data type, at the first place of all, and else
//! gives `Modes`, which say of a permission whether it is duplicable and of a type whether it is exclusive. The affine
//! data types are a least set (`specs/Affine.antt`); the code computes it as marks in rounds until a round adds none,
//! and is proved to reach just that set. `specs/Modes.antt` has `AreModes`, the fact that callers carry beside their
//! declarations, and `specs/Adopted.antt` what is refused and what a declared program is.
//!
//! Besides it has what the rules of commands and of views are made of: `use_up` and `use_up_all`, by which what is
//! affine goes and what is duplicable stays, `open_at`, which opens a data type as a block (`specs/Opening.antt`), and
//! what a call asks and gives back (`specs/Calling.antt`). `specs/Answers.antt` says once for all rules what an answer
//! means: the state is known exactly, as the first of equal copies goes, and `RuleFault::NoInstance` comes just where
//! the rule leads nowhere, whichever goes. `Makes` (`specs/Making.antt`) joins a command with its rule.
#![tactic(auto)]

mod adopted;
mod calling;
mod fault;
mod form;
mod marks;
mod mode;
mod opening;
mod using;

pub use calling::{at_args, callee_sig, gives_back, needed};
pub use fault::RuleFault;
pub use form::modes;
pub use mode::{ModeFault, Modes};
pub use opening::open_at;
pub use using::{use_up, use_up_all};

#[cfg(test)]
mod tests;
