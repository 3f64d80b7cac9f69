//! What a running thread is to do at the end of a body.
ghost use Rattle.std.specs.Prelude.{IfOk};
ghost use Rattle.mz_named.specs.Planning.{Leaves};

use crate::config::{Frame, Suspended};
use crate::plan::Plan;
use crate::values::{bound, value_of};
use mz_tree::Memory;
use std::alloc::Global;

/// What comes of the end of the frame's body, with these frames waiting below it.
pub fn leave(alloc: Global, frame: &Frame, below: &[Suspended]) -> Result<Plan, Memory>
    ensures { IfOk result (λ plan. Leaves frame.now below.now plan) }
{
    let value = value_of(frame.values.as_slice(), frame.rest.value);
    if let Some(level) = frame.outer.last() {
        let values = bound(alloc, frame.values.as_slice(), level.to, value)?;
        return Ok(Plan::Joins(values));
    }
    if let Some(waiting) = below.last() {
        let values = bound(alloc, waiting.frame.values.as_slice(), waiting.to, value)?;
        return Ok(Plan::Returns(values));
    }
    Ok(Plan::Ends)
}
