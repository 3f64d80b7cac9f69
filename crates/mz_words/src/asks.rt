//! What a thread asks next, and what it is answered.
use crate::words::Until;

/// What a thread asks next: a step on a word, or an act without one. Places are numbers of words.
#[derive(Clone, Copy, Debug, PartialEq, Eq)]
pub enum Ask {
    /// An act without a step.
    Local,
    /// A frame of so many registers is to be made. Memory may be refused.
    Frames(u32),
    /// A load that makes its entry only where the word meets this.
    Looks(u32, Until),
    /// A load of a thread's start, whose room was made before the thread ran: memory isn't refused.
    Starts(u32),
    /// A load.
    Loads(u32),
    /// An addition of this number.
    Adds(u32, u64),
    /// A store of this number.
    Stores(u32, u64),
    /// A try to set a word from 0 to 1.
    Tries(u32),
    /// A print of this number: its ticket is drawn.
    Prints(u64),
    /// The entry that closes a record after an own stop: the others are told to stop.
    Stops,
    /// The entry that closes a record at the end of the first frame: one thread less is alive.
    Leaves,
    /// No event: the thread is over, or what it would do next is wild.
    Nothing,
}

/// What a thread is answered.
#[derive(Clone, Copy, Debug, PartialEq, Eq)]
pub enum Answer {
    /// The step was made and saw this: an entry.
    Saw(u64),
    /// The act was done without an entry, or the look wasn't met.
    Quiet,
    /// The try failed.
    Missed,
    /// Memory was refused, and no step was made.
    Refused,
}
