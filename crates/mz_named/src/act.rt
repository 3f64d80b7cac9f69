//! What comes of an operation.

use crate::config::Value;

/// What an operation that binds a value at once did.
#[derive(Clone, Copy, Debug, PartialEq, Eq)]
pub enum Act {
    /// It acted, and its name gets this value.
    Binds(Value),
    /// It stops its thread: its arithmetic has no number as its result.
    FailsArith,
    /// It stops its thread: the block that it takes isn't its adopter's.
    FailsTake,
    /// It waits for a lock.
    Waits,
    /// It has no step.
    Wrong,
}
