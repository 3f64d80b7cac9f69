//! Whether the value of all branches is a name that is bound before them.
ghost use Rattle.std.specs.Prelude.{IfOk, IsTrue, ◌↔◌};
ghost use Rattle.mz_elab.specs.Joins.{InEach};
ghost use Rattle.mz_elab.specs.Joining.{CommonOf, Better, plain_ends};

use crate::ends::End;
use mz_tree::Memory;
use std::alloc::Global;

// the least bound name that is of the value's class in every branch
pub(crate) fn least_common(
    alloc: Global,
    bound: &[u32],
    ends: &[End],
) -> Result<Option<u32>, Memory>
    ensures { IfOk result (λ it. CommonOf it bound.now (plain_ends ends.now)) }
{
    let mut best = None;
    for i in 0..bound.len() {
        best = better(alloc, ends, best, bound[i])?;
    }
    Ok(best)
}

// the less of the best name so far and of this one, where this one is of each class
fn better(alloc: Global, ends: &[End], best: Option<u32>, name: u32) -> Result<Option<u32>, Memory>
    ensures { IfOk result (λ it. Better (plain_ends ends.now) best name it) }
{
    if let Some(least) = best {
        if least <= name {
            return Ok(best);
        }
    }
    if in_each(alloc, ends, name)? {
        return Ok(Some(name));
    }
    Ok(best)
}

// whether the name is of the value's class in each branch
fn in_each(alloc: Global, ends: &[End], name: u32) -> Result<bool, Memory>
    ensures { IfOk result (λ it. IsTrue it ↔ InEach name (plain_ends ends.now)) }
{
    for k in 0..ends.len() {
        let end = &ends[k];
        if !end.state.same_name(alloc, end.value, name)? {
            return Ok(false);
        }
    }
    Ok(true)
}
