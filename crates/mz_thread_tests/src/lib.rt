//! The tests of `mz_thread`: each end of a thread at its first and its last possible moment, by code laid by hand over plain words.
//! They stand above the crate, so that neither is proved for the other's changes.
//!
//! A turn asks that the code goes forward and that the words are the thread's. The one is looked at, and the other is kept from
//! turn to turn, while another actor stores what the test wants of it.
#![tactic(auto)]

mod forward;
mod runs;

pub use forward::goes_forward;
pub use runs::{Store, open, run};

#[cfg(test)]
mod tests;
