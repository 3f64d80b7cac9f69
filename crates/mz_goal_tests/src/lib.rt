//! The tests of `mz_goal`: goals of each rule in small states, what they leave, and that the view steps lead there. They
//! stand above the crate, so that neither is proved for the other's changes.
#![tactic(auto)]

#[cfg(test)]
mod tests;
