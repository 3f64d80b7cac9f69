//! A join: what is given, then what is known of the value, then what stands in every branch, then what was held before.
ghost use Rattle.std.specs.Prelude.{◌≡◌, ℕ, List, IfOk};
ghost use Rattle.mz_tree.specs.View.{plain_atoms};
ghost use Rattle.mz_decl.specs.View.{plain_decls};
ghost use Rattle.mz_modes.specs.Modes.{AreModes};
ghost use Rattle.mz_deriv.specs.Parts.{SameNames};
ghost use Rattle.mz_elab.specs.Standing.{IsKnown};
ghost use Rattle.mz_elab.specs.Joins.{first_state};
ghost use Rattle.mz_elab.specs.Joining.{JoinsEnds, plain_ends};

use crate::ends::End;
use crate::fault::ElabFault;
use crate::giving::give_all;
use crate::naming::outer_names;
use crate::restoring::restore;
use crate::sharing::share;
use crate::valuing::know_value;
use mz_decl::Decls;
use mz_index::Indexed;
use mz_modes::Modes;
use mz_perm::State;
use mz_tree::{Alike, Atom, Atoms, Memory};
use sqlite_items::Items;
use std::alloc::Global;

// the permissions in which the branches of a command join that binds the name `to`; `before` is the state before it
pub(crate) fn join_ends(
    alloc: Global,
    decls: &Decls,
    modes: &Modes,
    bound: &[u32],
    next: u32,
    to: u32,
    before: &Indexed,
    giving: &[Atom],
    ends: &mut [End],
) -> Result<Atoms, ElabFault>
    requires { AreModes (plain_decls decls.now) modes.now }
    ensures { (names : List ℕ) → SameNames bound.now names → JoinsEnds (plain_decls decls.now) (IsKnown bound.now next) names before.now to (plain_atoms giving.now) ends.old ends.new result }
{
    let outer = outer_names(alloc, bound, before)?;
    give_all(alloc, decls, modes, bound, next, to, giving, ends)?;
    let mut join = copied(alloc, giving)?;
    know_value(
        alloc, decls, modes, bound, next, to, &outer, ends, &mut join,
    )?;
    let these = first_state(alloc, ends)?;
    share(alloc, modes, outer.as_slice(), &these, ends, &mut join)?;
    restore(
        alloc, decls, modes, bound, next, to, before, ends, &mut join,
    )?;
    Ok(join)
}

// the permissions once more
fn copied(alloc: Global, atoms: &[Atom]) -> Result<Atoms, Memory>
    ensures { IfOk result (λ it. it ≡ atoms.now) }
{
    let mut all = Items::new(alloc);
    for i in 0..atoms.len() {
        all.push(atoms[i].copy(alloc)?)?;
    }
    Ok(all)
}

// the state of the first branch
fn first_state(alloc: Global, ends: &[End]) -> Result<Indexed, Memory>
    ensures { IfOk result (λ it. it ≡ first_state (plain_ends ends.now)) }
{
    if ends.len() == 0 {
        return Indexed::from_state(alloc, State::new(alloc));
    }
    ends[0].state.copy(alloc)
}
