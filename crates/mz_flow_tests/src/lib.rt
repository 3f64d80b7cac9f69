//! The tests of `mz_flow`: the state after each command, at the start of each branch and at an end, by tables. They stand above
//! the crate, so that neither is proved for the other's changes.
#![tactic(auto)]

#[cfg(test)]
mod tests;
