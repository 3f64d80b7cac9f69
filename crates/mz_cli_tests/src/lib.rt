//! Tests of `mz_cli`: what no clause says, the outputs of whole calls as they are wanted from outside. They stand in a crate
//! of their own, so that `mz_cli` is proved once and not a second time with its tests.
#![tactic(auto)]

#[cfg(test)]
mod tests;
