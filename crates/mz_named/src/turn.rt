//! What a call of a step answers.

/// What came of a thread's next step.
#[derive(Clone, Copy, Debug, PartialEq, Eq)]
pub enum NamedTurn {
    /// The thread made a step and runs on.
    Stepped,
    /// The thread's first frame has ended by this step, or the thread had ended or stopped before.
    Ended,
    /// The thread has stopped: the block that it takes isn't its adopter's.
    TakeFailed,
    /// The thread has stopped: its arithmetic has no number as its result.
    Arith,
    /// The thread waits for a lock that is held.
    Waits,
    /// The thread's next command has no step, and doesn't wait.
    Wrong,
}
