//! The tests of `mz_tree`: copies of values of each type, and values that differ in one number. They stand above the crate, so that
//! neither is proved for the other's changes.
#![tactic(auto)]

#[cfg(test)]
mod tests;
