//! The tests of `mz_print`: reports with their entries, and the numbers that were printed. They stand above the crate, so that it
//! isn't proved anew for them. `prints` asks that the tickets are in order, so each report is tested for that first.
#![tactic(auto)]

#[cfg(test)]
mod tests;
