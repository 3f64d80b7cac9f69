//! The tests of `mz_deriv`: what the check answers to written derivations of whole programs, right ones and ones with one thing
//! wrong. The programs are read from their sources, so the tests stand above all that reads; and neither `mz_deriv` nor its
//! tests are proved for the other's changes.
#![tactic(auto)]

#[cfg(test)]
mod tests;
