//! Tests of `mz_scope`: texts that resolve, and each refusal with its place. They stand in a crate of their own, so that
//! `mz_scope` is proved once and not a second time with its tests.
#![tactic(auto)]

#[cfg(test)]
mod tests;
