//! The tests of `mz_lower`: the code of sources, instruction by instruction. They stand above the crate, so that neither is proved for
//! the other's changes.
#![tactic(auto)]

#[cfg(test)]
mod tests;
