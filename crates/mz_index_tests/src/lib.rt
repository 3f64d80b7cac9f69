//! The tests of `mz_index`: what is found in one state with chains and rings of equations, and what its edits leave. They stand
//! above the crate, so that neither is proved for the other's changes.
#![tactic(auto)]

#[cfg(test)]
mod tests;
