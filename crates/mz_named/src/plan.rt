//! What a thread is to do next.

use crate::config::{Frame, Rest, Value};
use sqlite_items::Items;

/// What a thread is to do next, with all the memory that it wants but a place in a list.
#[derive(Drop)]
pub enum Plan {
    /// Its command has bound its value: the values of the frame's names from then on.
    Goes(Items<Value>),
    /// Its command stops it: the arithmetic has no number as its result.
    FailsArith,
    /// Its command stops it: the block that it takes isn't its adopter's.
    FailsTake,
    /// It goes on in this body, whose value gets the name `to`.
    Branches { to: u32, rest: Rest },
    /// It goes on in a new frame, whose value gets the name `to`.
    Calls { to: u32, frame: Frame },
    /// It starts a thread in a new frame; the values of the names of its own frame from then on.
    Spawns { frame: Frame, values: Items<Value> },
    /// It leaves a branch: the values of the frame's names from then on.
    Joins(Items<Value>),
    /// It returns to the frame that waits: the values of that frame's names from then on.
    Returns(Items<Value>),
    /// It ends.
    Ends,
    /// It waits for a lock.
    Waits,
    /// Its command has no step.
    Wrong,
}
