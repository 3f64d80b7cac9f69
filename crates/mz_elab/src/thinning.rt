//! View steps as items of a script, without those that say nothing new.
//!
//! A step that copies a permission isn't written, nor one that drops a duplicable permission of known names: the state of the
//! script then holds more of what is duplicable than the guided state does, which no rule minds.
ghost use Rattle.std.specs.Prelude.{◌≡◌, ◌++◌, IfOk, map, reverse, true};
ghost use Rattle.mz_decl.specs.Declarations.{Decls as PlainDecls};
ghost use Rattle.mz_modes.specs.Modes.{AreModes};
ghost use Rattle.mz_view.specs.Steps.{plain_step, plain_steps};
ghost use Rattle.mz_deriv.specs.View.{plain_item};
ghost use Rattle.mz_elab.specs.Standing.{IsKnown};
ghost use Rattle.mz_elab.specs.Thinning.{IsSilent, KeepsOne, KeepsThin, WritesThin};

use crate::outer::atom_names;
use mz_deriv::Item;
use mz_modes::Modes;
use mz_tree::Memory;
use mz_view::{ViewStep, ViewSteps};
use sqlite_items::Items;
use std::alloc::Global;

// writes the steps
pub(crate) fn write_steps(
    alloc: Global,
    modes: &Modes,
    bound: &[u32],
    next: u32,
    steps: ViewSteps,
    items: &mut Items<Item>,
) -> Result<(), Memory>
    ensures { (D : PlainDecls) → AreModes D modes.now → IfOk result (λ _. WritesThin D (IsKnown bound.now next) (plain_steps steps) (map plain_item items.old) (map plain_item items.new)) }
{
    let kept = keep(alloc, modes, bound, next, steps)?;
    put_back(items, kept)
}

// the steps that are written, the last first
fn keep(
    alloc: Global,
    modes: &Modes,
    bound: &[u32],
    next: u32,
    steps: ViewSteps,
) -> Result<Items<Item>, Memory>
    ensures { (D : PlainDecls) → AreModes D modes.now → IfOk result (λ it. KeepsThin D (IsKnown bound.now next) (plain_steps steps) it) }
{
    let mut left = steps;
    let mut kept = Items::new(alloc);
    while let Some(step) = left.pop() {
        keep_one(modes, bound, next, step, &mut kept)?;
    }
    Ok(kept)
}

// one more, unless it says nothing new
fn keep_one(
    modes: &Modes,
    bound: &[u32],
    next: u32,
    step: ViewStep,
    kept: &mut Items<Item>,
) -> Result<(), Memory>
    ensures { (D : PlainDecls) → AreModes D modes.now → IfOk result (λ _. KeepsOne D (IsKnown bound.now next) step kept.old kept.new) }
{
    if is_silent(modes, bound, next, &step) {
        return Ok(());
    }
    kept.push(Item::Step(step))?;
    Ok(())
}

// puts the items at the end, the last first
fn put_back(items: &mut Items<Item>, kept: Items<Item>) -> Result<(), Memory>
    ensures { IfOk result (λ _. items.new ≡ items.old ++ reverse kept) }
{
    let mut left = kept;
    while let Some(item) = left.pop() {
        items.push(item)?;
    }
    Ok(())
}

// whether the step says nothing new
fn is_silent(modes: &Modes, bound: &[u32], next: u32, step: &ViewStep) -> bool
    ensures { (D : PlainDecls) → AreModes D modes.now → result ≡ true → IsSilent D (IsKnown bound.now next) (plain_step step.now) }
{
    match step {
        ViewStep::Copy { .. } => true,
        ViewStep::Drop { atom } => modes.duplicable(atom) && atom_names(atom, bound, next),
        _ => false,
    }
}
