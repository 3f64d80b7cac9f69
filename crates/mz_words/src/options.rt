//! The limits of a run.

/// The limits of a run.
#[derive(Clone, Copy, Debug, PartialEq, Eq)]
pub struct Options {
    /// How many words there are, those of the header with them: 1,024 to 16,777,216.
    pub heap: u32,
    /// How many units a thread may make: 1 to 1,000,000. A unit is an entry of an instruction, or a call.
    pub steps: u32,
    /// How often a thread may try to acquire one lock: 1 to 4,294,967,295.
    pub tries: u32,
    /// How many workers share the threads: 1 to 16.
    pub workers: u32,
    /// After how many units a turn ends at the next border: 1 to 1,000,000.
    pub quantum: u32,
}
