//! Goals, and the view steps that are written for them.
ghost use Rattle.std.specs.Prelude.{◌≡◌, IfOk, map};
ghost use Rattle.mz_tree.specs.Saying.{Says};
ghost use Rattle.mz_tree.specs.View.{plain_atom, plain_atoms};
ghost use Rattle.mz_view.specs.Rules.{subject_of};
ghost use Rattle.mz_decl.specs.View.{plain_decls};
ghost use Rattle.mz_modes.specs.Modes.{AreModes};
ghost use Rattle.mz_deriv.specs.View.{plain_item};
ghost use Rattle.mz_elab.specs.Standing.{IsKnown};
ghost use Rattle.mz_elab.specs.Joining.{IsUnknownGoal, MeetsGoal, MeetsGoals, SaysUnknown};

use crate::fault::ElabFault;
use crate::thinning::write_steps;
use mz_decl::Decls;
use mz_deriv::Item;
use mz_goal::need;
use mz_index::Indexed;
use mz_modes::Modes;
use mz_tree::{Alike, Atom, Memory, Place, Ty};
use mz_view::ViewStep;
use sqlite_items::Items;
use std::alloc::Global;

// meets the goal, where the guided rules do. Of a name that holds `unknown` already nothing is written.
pub(crate) fn meet_goal(
    alloc: Global,
    decls: &Decls,
    modes: &Modes,
    bound: &[u32],
    next: u32,
    state: &mut Indexed,
    goal: &Atom,
    items: &mut Items<Item>,
) -> Result<bool, Memory>
    requires { AreModes (plain_decls decls.now) modes.now }
    ensures { IfOk result (λ it. MeetsGoal it (plain_decls decls.now) (IsKnown bound.now next) state.old (plain_atom goal.now) state.new (map plain_item items.old) (map plain_item items.new)) }
{
    if is_unknown_goal(goal) {
        meet_unknown(state, goal, items)?;
        return Ok(true);
    }
    let mut steps = Items::new(alloc);
    if !need(alloc, decls, modes, state, goal, &mut steps)? {
        return Ok(false);
    }
    write_steps(alloc, modes, bound, next, steps, items)?;
    Ok(true)
}

// meets these goals, one after the other
pub(crate) fn meet_goals(
    alloc: Global,
    decls: &Decls,
    modes: &Modes,
    bound: &[u32],
    next: u32,
    state: &mut Indexed,
    goals: &[Atom],
    place: Place,
    items: &mut Items<Item>,
) -> Result<(), ElabFault>
    requires { AreModes (plain_decls decls.now) modes.now }
    ensures { MeetsGoals (plain_decls decls.now) (IsKnown bound.now next) state.old (plain_atoms goals.now) place state.new (map plain_item items.old) (map plain_item items.new) result }
{
    for i in 0..goals.len() {
        let goal = &goals[i];
        if !meet_goal(alloc, decls, modes, bound, next, state, goal, items)? {
            let atom = goal.copy(alloc)?;
            return Err(ElabFault::NoPermission { place, atom });
        }
    }
    Ok(())
}

// whether the goal says nothing of a name
fn is_unknown_goal(goal: &Atom) -> bool
    ensures { Says result (IsUnknownGoal (plain_atom goal.now)) }
{
    match goal {
        Atom::Same { .. } => false,
        Atom::Has { name: _, ty } => match ty {
            Ty::Unknown => true,
            _ => false,
        },
    }
}

// meets a goal that says nothing
fn meet_unknown(state: &Indexed, goal: &Atom, items: &mut Items<Item>) -> Result<(), Memory>
    ensures { IfOk result (λ _. SaysUnknown state.now (plain_atom goal.now) items.old items.new) }
{
    if state.has(goal) {
        return Ok(());
    }
    items.push(Item::Step(ViewStep::Unknown {
        name: subject(goal),
    }))?;
    Ok(())
}

// the name of which a permission speaks
pub(crate) fn subject(atom: &Atom) -> u32
    ensures { result ≡ subject_of (plain_atom atom.now) }
{
    match atom {
        Atom::Has { name, .. } => *name,
        Atom::Same { left, .. } => *left,
    }
}
