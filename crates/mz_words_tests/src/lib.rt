//! The tests of `mz_tape` and `mz_words`: tapes at their ends, and each call on plain words with its answer and its entry. They
//! stand above the crates, so that neither is proved for the other's changes.
#![tactic(auto)]

#[cfg(test)]
mod tests;
