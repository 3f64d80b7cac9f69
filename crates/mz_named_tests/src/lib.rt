//! The tests of `mz_named`: what steps answer for the programs of its tables, and what is left behind them. They stand above the crate,
//! so that neither is proved for the other's changes.
#![tactic(auto)]

#[cfg(test)]
mod tests;
