//! The tests of `mz_sched`: reports of programs that are read from their sources, each with a derivation that was written by hand.
//! They stand above all that reads, checks and lowers, so that neither the crate nor its tests are proved for the other's changes.
//!
//! A schedule asks for tame code. The code of a program that was read and has a derivation is tame by the law of `mz_lowered`.
#![tactic(auto)]

#[cfg(test)]
mod checked;
#[cfg(test)]
mod tests;
