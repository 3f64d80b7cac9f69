//! All the steps of one list put at the end of another, or none.
ghost use Rattle.std.specs.Prelude.{◌≡◌, ◌≤◌, ◌++◌, IfOk, OnErr, length, reverse, take};

use mz_tree::Memory;
use mz_view::ViewSteps;
use sqlite_items::Items;
use std::alloc::Global;

// adds the steps at the end; where memory is wanting all stays as it is
pub(crate) fn append(alloc: Global, steps: &mut ViewSteps, more: ViewSteps) -> Result<(), Memory>
    ensures added { IfOk result (λ _. steps.new ≡ steps.old ++ more) }
    ensures kept { OnErr result (steps.new ≡ steps.old) }
{
    let turned = turn(alloc, more)?;
    put_back(steps, turned)
}

// the steps from the last to the first
fn turn(alloc: Global, steps: ViewSteps) -> Result<ViewSteps, Memory>
    ensures { IfOk result (λ it. reverse it ≡ steps) }
{
    let mut left = steps;
    let mut turned = Items::new(alloc);
    while let Some(step) = left.pop() {
        turned.push(step)?;
    }
    Ok(turned)
}

// adds them, the last first
fn put_back(steps: &mut ViewSteps, turned: ViewSteps) -> Result<(), Memory>
    ensures added { IfOk result (λ _. steps.new ≡ steps.old ++ reverse turned) }
    ensures kept { OnErr result (steps.new ≡ steps.old) }
{
    let count = steps.len();
    let mut left = turned;
    while let Some(step) = left.pop() {
        if steps.push(step).is_err() {
            cut(steps, count);
            return Err(Memory);
        }
    }
    Ok(())
}

// leaves so many
fn cut(steps: &mut ViewSteps, count: usize)
    requires { count ≤ length steps.old }
    ensures { steps.new ≡ take count steps.old }
{
    while steps.len() > count {
        steps.pop();
    }
}
