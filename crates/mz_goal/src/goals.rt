//! How a goal is met: the rules in their order, and a goal of a data type by the goals of a block's fields.
//!
//! Each goal of a field has fewer unused blocks at hand than the goal that it comes of, so that the recursion ends.
ghost use Rattle.std.specs.Prelude.{◌≡◌, ℕ, IfOk, Option, Some, None};
ghost use Rattle.mz_tree.specs.Plain.{Has_atom, Named_type};
ghost use Rattle.mz_tree.specs.View.{plain_atom, plain_ty};
ghost use Rattle.mz_decl.specs.View.{plain_decls};
ghost use Rattle.mz_modes.specs.Modes.{AreModes};
ghost use Rattle.mz_index.specs.Finding.{NoneFits};
ghost use Rattle.mz_goal.specs.Goals.{Serves};
ghost use Rattle.mz_goal.specs.Answers.{Did, NumberOf};
ghost use Rattle.mz_goal.specs.Marked.{entries};

use crate::folding::{close, open};
use crate::marks::Marks;
use crate::taking::{alike, dynamic, equal};
use mz_decl::Decls;
use mz_index::Indexed;
use mz_modes::Modes;
use mz_tree::{Atom, Memory, Ty};
use mz_view::ViewSteps;
use std::alloc::Global;

// meets the goal, if the rules do; if they don't the state, the marks and the steps are left as they then are
#[cycle(goals)]
pub(crate) fn meet(
    alloc: Global,
    decls: &Decls,
    modes: &Modes,
    state: &mut Indexed,
    marks: &mut Marks,
    goal: &Atom,
    steps: &mut ViewSteps,
) -> Result<bool, Memory>
    requires modes { AreModes (plain_decls decls.now) modes.now }
    ensures { IfOk result (λ it. Did it (plain_decls decls.now) (entries state.old marks.old) (plain_atom goal.now) (entries state.new marks.new) steps.old steps.new) }
{
    match goal {
        Atom::Same { left, right } => equal(alloc, state, marks, *left, *right, steps),
        Atom::Has { name, ty } => {
            if alike(alloc, decls, modes, state, marks, *name, ty, steps)? {
                return Ok(true);
            }
            match number_of(ty) {
                Some(number) => fold(alloc, decls, modes, state, marks, *name, number, steps),
                None => dynamic(alloc, decls, modes, state, marks, *name, ty, steps),
            }
        }
    }
}

// the number of a data type
fn number_of(ty: &Ty) -> Option<u32>
    ensures { NumberOf result (plain_ty ty.now) }
{
    match ty {
        Ty::Named(number) => Some(*number),
        _ => None,
    }
}

// meets a goal of a data type by a block
#[cycle(goals)]
fn fold(
    alloc: Global,
    decls: &Decls,
    modes: &Modes,
    state: &mut Indexed,
    marks: &mut Marks,
    name: u32,
    number: u32,
    steps: &mut ViewSteps,
) -> Result<bool, Memory>
    requires modes { AreModes (plain_decls decls.now) modes.now }
    requires alone { NoneFits (Serves (entries state.old marks.old) name (Named_type number)) (entries state.old marks.old) }
    ensures { IfOk result (λ it. Did it (plain_decls decls.now) (entries state.old marks.old) (Has_atom name (Named_type number)) (entries state.new marks.new) steps.old steps.new) }
{
    let whole = match open(alloc, decls, modes, state, marks, name, number, steps)? {
        Some(whole) => whole,
        None => return Ok(false),
    };
    let parts = whole.goals.as_slice();
    for i in 0..parts.len() {
        if !meet(alloc, decls, modes, state, marks, &parts[i], steps)? {
            return Ok(false);
        }
    }
    close(
        alloc, decls, modes, state, marks, name, number, &whole, steps,
    )?;
    Ok(true)
}
