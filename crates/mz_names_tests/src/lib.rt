//! The tests of `mz_names`: what is found of names that are pushed in order. They stand above the crate, so that neither is
//! proved for the other's changes.
#![tactic(auto)]

#[cfg(test)]
mod tests;
