//! Goals of the ends of branches.
ghost use Rattle.std.specs.Prelude.{◌≡◌, ◌∷◌, [], IfOk, length};
ghost use Rattle.mz_tree.specs.View.{plain_atom, plain_atoms};
ghost use Rattle.mz_decl.specs.View.{plain_decls};
ghost use Rattle.mz_modes.specs.Modes.{AreModes};
ghost use Rattle.mz_elab.specs.Standing.{IsKnown};
ghost use Rattle.mz_elab.specs.Joining.{GoesOn, AllGoOn, AllGiven};

use crate::ends::End;
use crate::fault::ElabFault;
use crate::goals::meet_goal;
use crate::values::atom_with;
use mz_decl::Decls;
use mz_modes::Modes;
use mz_tree::Atom;
use std::alloc::Global;

// one branch meets the goal, with its value for the name `to`
fn meet_end(
    alloc: Global,
    decls: &Decls,
    modes: &Modes,
    bound: &[u32],
    next: u32,
    to: u32,
    goal: &Atom,
    end: &mut End,
) -> Result<(), ElabFault>
    requires { AreModes (plain_decls decls.now) modes.now }
    ensures { GoesOn (plain_decls decls.now) (IsKnown bound.now next) to (plain_atom goal.now) end.old end.new result }
{
    let wanted = atom_with(alloc, goal, to, end.value)?;
    if meet_goal(
        alloc,
        decls,
        modes,
        bound,
        next,
        &mut end.state,
        &wanted,
        &mut end.items,
    )? {
        return Ok(());
    }
    Err(ElabFault::NoPermission {
        place: end.brace,
        atom: wanted,
    })
}

// each branch meets the goal
pub(crate) fn give(
    alloc: Global,
    decls: &Decls,
    modes: &Modes,
    bound: &[u32],
    next: u32,
    to: u32,
    goal: &Atom,
    ends: &mut [End],
) -> Result<(), ElabFault>
    requires { AreModes (plain_decls decls.now) modes.now }
    ensures { AllGoOn (plain_decls decls.now) (IsKnown bound.now next) to (plain_atom goal.now) ends.old ends.new result }
{
    for k in 0..ends.len() {
        meet_end(alloc, decls, modes, bound, next, to, goal, &mut ends[k])?;
    }
    Ok(())
}

// each branch meets each of these goals
pub(crate) fn give_all(
    alloc: Global,
    decls: &Decls,
    modes: &Modes,
    bound: &[u32],
    next: u32,
    to: u32,
    giving: &[Atom],
    ends: &mut [End],
) -> Result<(), ElabFault>
    requires { AreModes (plain_decls decls.now) modes.now }
    ensures { AllGiven (plain_decls decls.now) (IsKnown bound.now next) to (plain_atoms giving.now) ends.old ends.new result }
{
    for i in 0..giving.len() {
        give(alloc, decls, modes, bound, next, to, &giving[i], ends)?;
    }
    Ok(())
}
