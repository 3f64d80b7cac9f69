//! Lowering: the code of a program.
#![tactic(auto)]

mod acts;
mod counting;
mod emitting;
mod laws;
mod lowering;

pub use laws::simulates;
pub use lowering::lower;
