//! The tests of `mz_script`: texts of derivations that read, and the first wrong line of those that don't.
//! They stand above the crate, so that neither is proved for the other's changes.
#![tactic(auto)]

#[cfg(test)]
mod program;
#[cfg(test)]
mod tests;
