//! The tests of `mz_parse`: what `parse` answers for the texts of a table and for tokens that no text has. They stand above the
//! crate, so that neither is proved for the other's changes.
#![tactic(auto)]

#[cfg(test)]
mod tests;
