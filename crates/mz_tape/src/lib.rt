//! Tapes: what each thread of a run did to the shared words, entry by entry.
//!
//! An `Entry` is one step on one word: who made it, where, of which kind, with which value, and what it saw. A `Tape` is a
//! list of entries that grows at its end. Its value in contracts is that list and a number `spare`
//! (`specs/Tapes.antt`): so many entries may be pushed before memory is asked for again. `reserve` is the only call that
//! takes memory, and `push` can't fail: so a step on the words and its entry never come apart. The clauses speak of the
//! list and of `spare` alone, and so they stay as they are where the entries are kept otherwise than in one vector.
#![tactic(auto)]

mod entry;
mod tape;

pub use entry::{Entry, Kind};
pub use tape::{Tape, TapeIter};
