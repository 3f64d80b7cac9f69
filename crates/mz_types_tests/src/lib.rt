//! The tests of `mz_types`: what its three calls answer for the texts of a table. They stand above the crate, so that neither is
//! proved for the other's changes.
#![tactic(auto)]

#[cfg(test)]
mod tests;
