//! Steps by which a permission's type becomes one that is alike.
//!
//! The permission stands at the end of the state that the steps lead to. Its names are gone through in written order;
//! where one isn't the wanted one, their equation is made, the step puts the one for the other, and what it leaves is
//! dropped.
ghost use Rattle.std.specs.Prelude.{◌≡◌, ◌++◌, ◌∷◌, [], IfOk, Some, slice_get};
ghost use Rattle.mz_tree.specs.Plain.{Has_atom};
ghost use Rattle.mz_tree.specs.View.{plain_ty};
ghost use Rattle.mz_decl.specs.Declarations.{Decls as PlainDecls};
ghost use Rattle.mz_modes.specs.Modes.{AreModes};
ghost use Rattle.mz_perm.specs.Joining.{Joined};
ghost use Rattle.mz_view.specs.Spots.{names_in_type, PutsType};
ghost use Rattle.mz_view.specs.Steps.{plain_steps};
ghost use Rattle.mz_index.specs.Classes.{AreAlike};
ghost use Rattle.mz_goal.specs.Changing.{put_steps};
ghost use Rattle.mz_goal.specs.Added.{Added};

use crate::listing::{names_of_type, put_in_type};
use crate::naming::{drop_kept, equate, has};
use mz_index::Indexed;
use mz_modes::Modes;
use mz_tree::{Alike, Atom, Memory, Ty};
use mz_view::{ViewStep, ViewSteps};
use std::alloc::Global;

// adds the steps from the one type to the other
pub(crate) fn retype(
    alloc: Global,
    modes: &Modes,
    state: &Indexed,
    name: u32,
    from: &Ty,
    to: &Ty,
    steps: &mut ViewSteps,
) -> Result<(), Memory>
    requires { AreAlike state.now (plain_ty from.now) (plain_ty to.now) }
    ensures { (D : PlainDecls) → AreModes D modes.now → IfOk result (λ _. Added D (state.now ++ Has_atom name (plain_ty from.now) ∷ []) (plain_steps steps.old) (plain_steps steps.new) (state.now ++ Has_atom name (plain_ty to.now) ∷ [])) }
{
    let old = names_of_type(alloc, from)?;
    let new = names_of_type(alloc, to)?;
    let before = old.as_slice();
    let after = new.as_slice();
    let mut ty = from.copy(alloc)?;
    for i in 0..after.len() {
        put(
            alloc, modes, state, name, &mut ty, i, before[i], after[i], steps,
        )?;
    }
    Ok(())
}

// puts a name for the one at a place, which it equals
fn put(
    alloc: Global,
    modes: &Modes,
    state: &Indexed,
    name: u32,
    ty: &mut Ty,
    spot: usize,
    from: u32,
    to: u32,
    steps: &mut ViewSteps,
) -> Result<(), Memory>
    requires stands { slice_get (names_in_type (plain_ty ty.old)) spot ≡ Some from }
    requires equal { Joined state.now from to }
    ensures puts { IfOk result (λ _. PutsType spot to (plain_ty ty.old) (plain_ty ty.new)) }
    ensures leads { (D : PlainDecls) → AreModes D modes.now → IfOk result (λ _. Added D (state.now ++ Has_atom name (plain_ty ty.old) ∷ []) (plain_steps steps.old) (plain_steps steps.new) (state.now ++ Has_atom name (plain_ty ty.new) ∷ [])) }
{
    if from == to {
        return Ok(());
    }
    equate(alloc, state, from, to, steps)?;
    let new = put_in_type(alloc, ty, spot, to)?;
    add_put(alloc, name, ty, spot, to, steps)?;
    drop_kept(alloc, modes, name, ty, steps)?;
    steps.push(ViewStep::Drop {
        atom: Atom::Same {
            left: from,
            right: to,
        },
    })?;
    *ty = new;
    Ok(())
}

// adds the step that puts it
fn add_put(
    alloc: Global,
    name: u32,
    ty: &Ty,
    spot: usize,
    to: u32,
    steps: &mut ViewSteps,
) -> Result<(), Memory>
    ensures { IfOk result (λ _. plain_steps steps.new ≡ plain_steps steps.old ++ put_steps name (plain_ty ty.now) spot to) }
{
    let atom = has(alloc, name, ty)?;
    let place = place_of(spot)?;
    match ty {
        Ty::Block { .. } => {
            steps.push(ViewStep::InField {
                atom,
                field: place,
                to,
            })?;
            Ok(())
        }
        Ty::Lock(_) => {
            steps.push(ViewStep::InLock {
                atom,
                spot: place,
                to,
            })?;
            Ok(())
        }
        Ty::Int => Ok(()),
        Ty::Unknown => Ok(()),
        Ty::Dynamic => Ok(()),
        Ty::Locked => Ok(()),
        Ty::Named(_) => Ok(()),
        Ty::Function(_) => Ok(()),
    }
}

// the place as steps have it; one that is no such number stands in a type that memory doesn't hold
fn place_of(spot: usize) -> Result<u32, Memory>
    ensures { IfOk result (λ it. it ≡ spot) }
{
    match u32::try_from(spot) {
        Ok(place) => Ok(place),
        Err(_) => Err(Memory),
    }
}
