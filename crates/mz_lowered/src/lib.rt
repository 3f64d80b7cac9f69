//! The law of the whole, from a derivation down to the words.
//!
//! mz_resource says that a program with a derivation is safe by name, and mz_lower that a program's code is safe where the program is
//! safe by name and has what lowering needs. Here the two are put together: a program that was read has what lowering needs, its code
//! is in range, and so the code of each program with a derivation is safe (`specs/Laws.antt`, over mz_lower's `Safe`). The laws are
//! empty functions: their contracts hold for every program, with no premise but that it was read and has a derivation.
#![tactic(auto)]

mod laws;

pub use laws::{all_code_opens, derivable_is_safe, doubling_runs_safely, lowers_safely};
