//! The second part of a join: what is known of the value.
ghost use Rattle.std.specs.Prelude.{◌≡◌, ◌<◌, ℕ, List, IfOk, Some, length, slice_get};
ghost use Rattle.mz_tree.specs.Plain.{Atom as PlainAtom, Ty as PlainTy, Has_atom};
ghost use Rattle.mz_tree.specs.View.{plain_atoms, plain_ty};
ghost use Rattle.mz_decl.specs.View.{plain_decls};
ghost use Rattle.mz_modes.specs.Modes.{AreModes};
ghost use Rattle.mz_deriv.specs.Parts.{SameNames};
ghost use Rattle.mz_elab.specs.Standing.{IsKnown};
ghost use Rattle.mz_elab.specs.Joins.{InEach};
ghost use Rattle.mz_elab.specs.Sought.{FirstAt, Held_sought, IsSought};
ghost use Rattle.mz_elab.specs.Joining.{AreOuter, HeldTy, HoldsOr, Names as NamesIt, TypeKnown, ValuesAll, plain_ends};

use crate::common::least_common;
use crate::ends::End;
use crate::fault::ElabFault;
use crate::finding::{Sought, first_of};
use crate::giving::give;
use crate::trying::try_all;
use mz_decl::Decls;
use mz_index::Indexed;
use mz_modes::Modes;
use mz_tree::{Alike, Atom, Atoms, Memory, Names, Ty};
use std::alloc::Global;

// each branch says that its value is this bound name
fn name_value(
    alloc: Global,
    decls: &Decls,
    modes: &Modes,
    bound: &[u32],
    next: u32,
    to: u32,
    name: u32,
    ends: &mut [End],
    join: &mut Atoms,
) -> Result<(), Memory>
    requires modes { AreModes (plain_decls decls.now) modes.now }
    requires each { InEach name (plain_ends ends.old) }
    ensures { IfOk result (λ _. NamesIt (plain_decls decls.now) (IsKnown bound.now next) to name ends.old ends.new (plain_atoms join.old) (plain_atoms join.new)) }
{
    let goal = Atom::Same {
        left: to,
        right: name,
    };
    match give(alloc, decls, modes, bound, next, to, &goal, ends) {
        Ok(()) => {}
        Err(ElabFault::NoPermission { .. }) => unreachable!(),
        Err(ElabFault::Memory) => return Err(Memory),
    }
    join.push(goal)?;
    Ok(())
}

// each branch says that it holds its value at this type, where all do
fn hold_value(
    alloc: Global,
    decls: &Decls,
    modes: &Modes,
    bound: &[u32],
    next: u32,
    to: u32,
    ty: Ty,
    ends: &mut [End],
    join: &mut Atoms,
) -> Result<(), Memory>
    requires { AreModes (plain_decls decls.now) modes.now }
    ensures { IfOk result (λ _. HoldsOr (plain_decls decls.now) (IsKnown bound.now next) to (plain_ty ty) ends.old ends.new (plain_atoms join.old) (plain_atoms join.new)) }
{
    let goal = Atom::Has { name: to, ty };
    if !try_all(alloc, decls, modes, bound, next, to, &goal, ends)? {
        return Ok(());
    }
    join.push(goal)?;
    Ok(())
}

// the first permission that the first branch holds of its value, at a type that says something and names outer names
fn first_held(
    alloc: Global,
    decls: &Decls,
    modes: &Modes,
    outer: &Names,
    end: &End,
) -> Result<Option<usize>, Memory>
    requires { AreModes (plain_decls decls.now) modes.now }
    ensures { IfOk result (λ it. FirstAt end.now.state end.now.value (IsSought (plain_decls decls.now) (Held_sought outer.now)) it) }
{
    let sought = Sought::Held(outer.copy(alloc)?);
    let found = first_of(alloc, decls, modes, &end.state, end.value, &sought)?;
    Ok(found)
}

// the type of the permission at this place
pub(crate) fn type_at(alloc: Global, state: &Indexed, place: usize) -> Result<Ty, Memory>
    requires { place < length state.now }
    ensures { (x : ℕ) (t : PlainTy ℕ) → slice_get state.now place ≡ Some (Has_atom x t) → IfOk result (λ it. plain_ty it ≡ t) }
{
    match state.at(place) {
        Atom::Has { ty, .. } => ty.copy(alloc),
        Atom::Same { .. } => Ok(Ty::Unknown),
    }
}

// its type
fn first_ty(
    alloc: Global,
    decls: &Decls,
    modes: &Modes,
    outer: &Names,
    end: &End,
) -> Result<Option<Ty>, Memory>
    requires { AreModes (plain_decls decls.now) modes.now }
    ensures { (names : List ℕ) (R : List (PlainAtom ℕ)) → AreOuter outer.now names R → IfOk result (λ it. HeldTy names R end.now.state end.now.value it) }
{
    match first_held(alloc, decls, modes, outer, end)? {
        None => Ok(None),
        Some(place) => {
            let ty = type_at(alloc, &end.state, place)?;
            Ok(Some(ty))
        }
    }
}

// what is known of the value is put at the end of the join
pub(crate) fn know_value(
    alloc: Global,
    decls: &Decls,
    modes: &Modes,
    bound: &[u32],
    next: u32,
    to: u32,
    outer: &Names,
    ends: &mut [End],
    join: &mut Atoms,
) -> Result<(), Memory>
    requires { AreModes (plain_decls decls.now) modes.now }
    ensures { (names : List ℕ) (R : List (PlainAtom ℕ)) → SameNames bound.now names → AreOuter outer.now names R → IfOk result (λ _. ValuesAll (plain_decls decls.now) (IsKnown bound.now next) names R to ends.old ends.new (plain_atoms join.old) (plain_atoms join.new)) }
{
    match least_common(alloc, bound, ends)? {
        Some(name) => name_value(alloc, decls, modes, bound, next, to, name, ends, join)?,
        None => know_type(alloc, decls, modes, bound, next, to, outer, ends, join)?,
    }
    Ok(())
}

// the same, where it is no bound name
fn know_type(
    alloc: Global,
    decls: &Decls,
    modes: &Modes,
    bound: &[u32],
    next: u32,
    to: u32,
    outer: &Names,
    ends: &mut [End],
    join: &mut Atoms,
) -> Result<(), Memory>
    requires { AreModes (plain_decls decls.now) modes.now }
    ensures { (names : List ℕ) (R : List (PlainAtom ℕ)) → AreOuter outer.now names R → IfOk result (λ _. TypeKnown (plain_decls decls.now) (IsKnown bound.now next) names R to ends.old ends.new (plain_atoms join.old) (plain_atoms join.new)) }
{
    if ends.len() == 0 {
        return Ok(());
    }
    match first_ty(alloc, decls, modes, outer, &ends[0])? {
        None => Ok(()),
        Some(ty) => {
            hold_value(alloc, decls, modes, bound, next, to, ty, ends, join)?;
            Ok(())
        }
    }
}
