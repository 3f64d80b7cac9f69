//! Entries: one step on one word each.

/// What a step does to its word.
#[derive(Clone, Copy, Debug, PartialEq, Eq)]
pub enum Kind {
    /// The word stays as it is.
    Load,
    /// The word is the value.
    Store,
    /// The value is added, modulo 2^64.
    Add,
    /// The value is subtracted, modulo 2^64.
    Sub,
    /// The word is the larger of itself and the value.
    Max,
    /// The word was 0 and is 1.
    Lock,
    /// The word of the tickets rises by one. The value is the number that is printed, and what was seen is its ticket.
    Print,
}

/// A step on the words, as its thread recorded it.
#[derive(Clone, Copy, Debug, PartialEq, Eq)]
pub struct Entry {
    /// The number of the thread that made the step.
    pub actor: u32,
    /// The number of the word, from 0.
    pub place: u32,
    pub kind: Kind,
    /// What was stored, added, subtracted, compared with or printed: 0 for a load, and 1 for a lock.
    pub value: u64,
    /// The word before the step: 0 for a store, which doesn't look, and for a lock.
    pub seen: u64,
}
