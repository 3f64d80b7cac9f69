//! What is left of a run.
use crate::ends::End;
use mz_tape::Tape;
use sqlite_items::Items;

/// Records, by thread number.
pub type Tapes = Items<Tape>;

/// Ends, by thread number.
pub type Ends = Items<End>;

/// Numbers: one for each thread, or all words.
pub type Numbers = Items<u64>;

/// What is left of a run, of each of the 64 threads by its number, and the words as they stood at its end.
#[derive(Drop)]
pub struct Report {
    /// What each thread did.
    pub parts: Tapes,
    /// How each thread ended.
    pub ends: Ends,
    /// How many tries had failed since the last entry but the closing one.
    pub lost: Numbers,
    /// The words.
    pub words: Numbers,
}
