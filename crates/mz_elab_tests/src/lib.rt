//! The tests of `mz_elab`: what is answered to programs that are read from their sources. They stand above all that reads, so
//! that neither the crate nor its tests are proved for the other's changes.
#![tactic(auto)]

#[cfg(test)]
mod answers;
#[cfg(test)]
mod tests;
