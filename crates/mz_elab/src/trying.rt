//! A goal that all branches meet, or none is asked to.
//!
//! Whether all meet it is looked at on copies of their states first, so that where some branch doesn't all stay as they are.
ghost use Rattle.std.specs.Prelude.{◌≡◌, IfOk};
ghost use Rattle.mz_tree.specs.View.{plain_atom};
ghost use Rattle.mz_decl.specs.View.{plain_decls};
ghost use Rattle.mz_modes.specs.Modes.{AreModes};
ghost use Rattle.mz_elab.specs.Standing.{IsKnown};
ghost use Rattle.mz_elab.specs.Joining.{AllWould, Tries, Would, plain_end, plain_ends};

use crate::ends::End;
use crate::fault::ElabFault;
use crate::giving::give;
use crate::values::atom_with;
use mz_decl::Decls;
use mz_goal::need;
use mz_modes::Modes;
use mz_tree::{Atom, Memory};
use sqlite_items::Items;
use std::alloc::Global;

// each branch meets the goal, where all do
pub(crate) fn try_all(
    alloc: Global,
    decls: &Decls,
    modes: &Modes,
    bound: &[u32],
    next: u32,
    to: u32,
    goal: &Atom,
    ends: &mut [End],
) -> Result<bool, Memory>
    requires { AreModes (plain_decls decls.now) modes.now }
    ensures { IfOk result (λ it. Tries it (plain_decls decls.now) (IsKnown bound.now next) to (plain_atom goal.now) ends.old ends.new) }
{
    if !would_all(alloc, decls, modes, to, goal, ends)? {
        return Ok(false);
    }
    match give(alloc, decls, modes, bound, next, to, goal, ends) {
        Ok(()) => Ok(true),
        Err(ElabFault::NoPermission { .. }) => unreachable!(),
        Err(ElabFault::Memory) => Err(Memory),
    }
}

// whether all branches would meet the goal
fn would_all(
    alloc: Global,
    decls: &Decls,
    modes: &Modes,
    to: u32,
    goal: &Atom,
    ends: &[End],
) -> Result<bool, Memory>
    requires { AreModes (plain_decls decls.now) modes.now }
    ensures { IfOk result (λ it. AllWould it (plain_decls decls.now) to (plain_atom goal.now) (plain_ends ends.now)) }
{
    for k in 0..ends.len() {
        let end = &ends[k];
        if !would(alloc, decls, modes, to, goal, end)? {
            return Ok(false);
        }
    }
    Ok(true)
}

// whether one would
fn would(
    alloc: Global,
    decls: &Decls,
    modes: &Modes,
    to: u32,
    goal: &Atom,
    end: &End,
) -> Result<bool, Memory>
    requires { AreModes (plain_decls decls.now) modes.now }
    ensures { IfOk result (λ it. Would it (plain_decls decls.now) to (plain_atom goal.now) (plain_end end.now)) }
{
    let wanted = atom_with(alloc, goal, to, end.value)?;
    let mut left = end.state.copy(alloc)?;
    let mut steps = Items::new(alloc);
    let met = need(alloc, decls, modes, &mut left, &wanted, &mut steps)?;
    Ok(met)
}
