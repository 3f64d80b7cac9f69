//! One goal of a command, a join or an end.
//!
//! The goal is met on a copy of the state, and its steps are collected apart, so that where it isn't met, or memory is
//! wanting, the state and the script are as before.
ghost use Rattle.std.specs.Prelude.{◌≡◌, ◌<◌, ℕ, IfOk, OnErr, Some, length, slice_get};
ghost use Rattle.mz_tree.specs.Plain.{Atom as PlainAtom};
ghost use Rattle.mz_tree.specs.View.{plain_atom};
ghost use Rattle.mz_decl.specs.View.{plain_decls};
ghost use Rattle.mz_modes.specs.Modes.{AreModes};
ghost use Rattle.mz_goal.specs.Answers.{MeetsNeed, MeetsBeside, MeetsFrom};
ghost use Rattle.mz_goal.specs.Marked.{entries};

use crate::appending::append;
use crate::goals::meet;
use crate::marks::{Mark, Marks, set_mark};
use mz_decl::Decls;
use mz_index::Indexed;
use mz_modes::Modes;
use mz_tree::{Atom, Memory};
use mz_view::ViewSteps;
use sqlite_items::Items;
use std::alloc::Global;

/// Meets the goal, where the guided rules do. The answer yes comes exactly there: the state is then that of the rules, so
/// that an affine permission that meets the goal is taken out, and steps are added that lead by the view rules from the
/// old state to the new one with the goal's permission added, order aside. Where they don't meet it, or memory is wanting,
/// the state and the steps stay as they are.
pub fn need(
    alloc: Global,
    decls: &Decls,
    modes: &Modes,
    state: &mut Indexed,
    goal: &Atom,
    steps: &mut ViewSteps,
) -> Result<bool, Memory>
    requires { AreModes (plain_decls decls.now) modes.now }
    ensures met { IfOk result (λ it. MeetsNeed it (plain_decls decls.now) state.old (plain_atom goal.now) state.new steps.old steps.new) }
    ensures state_kept { OnErr result (state.new ≡ state.old) }
    ensures steps_kept { OnErr result (steps.new ≡ steps.old) }
{
    meet_from(alloc, decls, modes, state, Items::new(alloc), goal, steps)
}

/// The same, while the permission at this place is set aside: the rules don't see it, and it keeps its place among those
/// that are left.
pub fn need_beside(
    alloc: Global,
    decls: &Decls,
    modes: &Modes,
    state: &mut Indexed,
    place: usize,
    goal: &Atom,
    steps: &mut ViewSteps,
) -> Result<bool, Memory>
    requires modes { AreModes (plain_decls decls.now) modes.now }
    requires within { place < length state.old }
    ensures met { (a : PlainAtom ℕ) → slice_get state.old place ≡ Some a → IfOk result (λ it. MeetsBeside it (plain_decls decls.now) state.old place a (plain_atom goal.now) state.new steps.old steps.new) }
    ensures state_kept { OnErr result (state.new ≡ state.old) }
    ensures steps_kept { OnErr result (steps.new ≡ steps.old) }
{
    let mut marks = Items::new(alloc);
    set_mark(&mut marks, place, Mark::Aside)?;
    meet_from(alloc, decls, modes, state, marks, goal, steps)
}

// the same, with these marks to begin with
fn meet_from(
    alloc: Global,
    decls: &Decls,
    modes: &Modes,
    state: &mut Indexed,
    marks: Marks,
    goal: &Atom,
    steps: &mut ViewSteps,
) -> Result<bool, Memory>
    requires { AreModes (plain_decls decls.now) modes.now }
    ensures met { IfOk result (λ it. MeetsFrom it (plain_decls decls.now) state.old (entries state.old marks) (plain_atom goal.now) state.new steps.old steps.new) }
    ensures state_kept { OnErr result (state.new ≡ state.old) }
    ensures steps_kept { OnErr result (steps.new ≡ steps.old) }
{
    let mut left = state.copy(alloc)?;
    let mut now = marks;
    let mut made = Items::new(alloc);
    if !meet(alloc, decls, modes, &mut left, &mut now, goal, &mut made)? {
        return Ok(false);
    }
    append(alloc, steps, made)?;
    *state = left;
    Ok(true)
}
