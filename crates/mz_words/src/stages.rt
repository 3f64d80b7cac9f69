//! How far a thread is, and the frames that wait in it.
use crate::ends::End;
use sqlite_items::Items;

/// How far a thread is, from its idle looks to its end.
#[derive(Clone, Copy, Debug, PartialEq, Eq)]
pub enum Stage {
    /// Idle: before the look whether it may start.
    Idle,
    /// Idle: before the look whether it has to stop.
    IdleStop,
    /// Idle: before the look whether any thread is alive.
    IdleLive,
    /// Started: its function is to be loaded.
    LoadFun,
    /// Started: its argument is to be loaded. The function is this one.
    LoadArg(u64),
    /// Started: its first frame is to be made, of this function with this argument.
    Entering(u64, u64),
    /// Before an instruction: before the look whether it has to stop.
    Border,
    /// At the first step of the instruction.
    Ready,
    /// A block or a lock was drawn, at this place, and so many of its words are stored.
    Making(u64, u64),
    /// The adopter was seen, and is to be cleared.
    Taking,
    /// A thread's number was drawn, and so many steps were made since.
    Spawning(u64, u64),
    /// A tag was seen that no case has.
    Unmatched,
    /// Only the entry that closes the record is left.
    Closing(End),
    /// Over, with this end.
    Over(End),
}

/// A frame that waits for a call.
#[derive(Drop)]
pub struct Waiting {
    /// The instruction at which it goes on.
    pub at: usize,
    /// Its registers.
    pub regs: Items<u64>,
    /// The register that gets the result of the call.
    pub to: u32,
}
