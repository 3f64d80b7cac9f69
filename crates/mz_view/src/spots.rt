//! The names in what a lock guards, by their places: the rule inlock.
ghost use Rattle.std.specs.Prelude.{◌≡◌, IfOk, slice_set};
ghost use Rattle.mz_tree.specs.Plain.{Has_atom, Lock_type, More_atoms, No_atoms, atoms_of};
ghost use Rattle.mz_tree.specs.View.{plain_ty, plain_atom, plain_atoms};
ghost use Rattle.mz_view.specs.Spots.{names_in, names_in_atom, names_in_type, Puts, PutsAtom, PutsType};
ghost use Rattle.mz_view.specs.Rules.{OnLock, SetsSpot};
ghost use Rattle.mz_view.specs.Answers.{Becomes, IsSpot};

use crate::ViewFault;
use mz_perm::State;
use mz_tree::{Alike, Atom, Atoms, Memory, Names, Ty};
use sqlite_items::Items;
use std::alloc::Global;

// what stands at a place of some names: a name, or, past their end, nothing, and how far past
#[derive(Clone, Copy)]
pub(crate) enum Spot {
    At(u32),
    Past(u32),
}

// puts a name for one in what the lock guards, which equals it
pub(crate) fn set_spot(
    alloc: Global,
    state: &mut State,
    atom: &Atom,
    spot: u32,
    to: u32,
) -> Result<(), ViewFault>
    ensures { Becomes (λ which T. OnLock (plain_atom atom.now) (λ l p. SetsSpot state.old spot to l p T)) state.old state.new result }
{
    match atom {
        Atom::Same { .. } => Err(ViewFault::NotAnInstance),
        Atom::Has { name, ty } => match ty {
            Ty::Lock(atoms) => set_lock(alloc, state, atom, *name, atoms.as_slice(), spot, to),
            _ => Err(ViewFault::NotAnInstance),
        },
    }
}

// the same, of a lock with this subject that guards these permissions
fn set_lock(
    alloc: Global,
    state: &mut State,
    atom: &Atom,
    name: u32,
    guarded: &[Atom],
    spot: u32,
    to: u32,
) -> Result<(), ViewFault>
    requires { plain_atom atom.now ≡ Has_atom name (Lock_type (atoms_of (plain_atoms guarded.now))) }
    ensures { Becomes (λ which. SetsSpot state.old spot to name (atoms_of (plain_atoms guarded.now))) state.old state.new result }
{
    if !state.has(atom) {
        return Err(ViewFault::NotAnInstance);
    }
    match spot_in_atoms(guarded, spot) {
        Spot::Past(_) => Err(ViewFault::NotAnInstance),
        Spot::At(left) => {
            if !state.has(&Atom::Same { left, right: to }) {
                return Err(ViewFault::NotAnInstance);
            }
            let changed = put_in_atoms(alloc, guarded, spot, to)?;
            state.add(Atom::Has {
                name,
                ty: Ty::Lock(changed),
            })?;
            Ok(())
        }
    }
}

// the name at a place
#[cycle(spots)]
fn spot_in_atoms(atoms: &[Atom], spot: u32) -> Spot
    ensures { IsSpot result (names_in (atoms_of (plain_atoms atoms.now))) spot }
{
    let mut left = spot;
    for i in 0..atoms.len() {
        match spot_in_atom(&atoms[i], left) {
            Spot::At(name) => return Spot::At(name),
            Spot::Past(more) => left = more,
        }
    }
    Spot::Past(left)
}

#[cycle(spots)]
fn spot_in_atom(atom: &Atom, spot: u32) -> Spot
    ensures { IsSpot result (names_in_atom (plain_atom atom.now)) spot }
{
    match atom {
        Atom::Has { name, ty } => {
            if spot == 0 {
                return Spot::At(*name);
            }
            spot_in_type(ty, spot - 1)
        }
        Atom::Same { left, right } => {
            if spot == 0 {
                return Spot::At(*left);
            }
            if spot == 1 {
                return Spot::At(*right);
            }
            Spot::Past(spot - 2)
        }
    }
}

#[cycle(spots)]
fn spot_in_type(ty: &Ty, spot: u32) -> Spot
    ensures { IsSpot result (names_in_type (plain_ty ty.now)) spot }
{
    match ty {
        Ty::Block { fields, .. } => spot_in_names(fields.as_slice(), spot),
        Ty::Lock(atoms) => spot_in_atoms(atoms.as_slice(), spot),
        _ => Spot::Past(spot),
    }
}

fn spot_in_names(names: &[u32], spot: u32) -> Spot
    ensures { IsSpot result names.now spot }
{
    if (spot as usize) < names.len() {
        return Spot::At(names[spot as usize]);
    }
    Spot::Past(spot - names.len() as u32)
}

// the permissions with another name at a place; all stays where the place is past the last name
#[cycle(putting)]
fn put_in_atoms(alloc: Global, atoms: &[Atom], spot: u32, to: u32) -> Result<Atoms, Memory>
    ensures { IfOk result (λ it. Puts spot to (atoms_of (plain_atoms atoms.now)) (atoms_of (plain_atoms it))) }
{
    let mut left = spot;
    for i in 0..atoms.len() {
        let atom = &atoms[i];
        match spot_in_atom(atom, left) {
            Spot::At(_) => {
                let mut all = copy_atoms(alloc, atoms)?;
                all.set(i, put_in_atom(alloc, atom, left, to)?);
                return Ok(all);
            }
            Spot::Past(more) => left = more,
        }
    }
    copy_atoms(alloc, atoms)
}

#[cycle(putting)]
fn put_in_atom(alloc: Global, atom: &Atom, spot: u32, to: u32) -> Result<Atom, Memory>
    ensures { IfOk result (λ it. PutsAtom spot to (plain_atom atom.now) (plain_atom it)) }
{
    match atom {
        Atom::Has { name, ty } => {
            if spot == 0 {
                return Ok(Atom::Has {
                    name: to,
                    ty: ty.copy(alloc)?,
                });
            }
            Ok(Atom::Has {
                name: *name,
                ty: put_in_type(alloc, ty, spot - 1, to)?,
            })
        }
        Atom::Same { left, right } => {
            if spot == 0 {
                return Ok(Atom::Same {
                    left: to,
                    right: *right,
                });
            }
            if spot == 1 {
                return Ok(Atom::Same {
                    left: *left,
                    right: to,
                });
            }
            Ok(Atom::Same {
                left: *left,
                right: *right,
            })
        }
    }
}

#[cycle(putting)]
fn put_in_type(alloc: Global, ty: &Ty, spot: u32, to: u32) -> Result<Ty, Memory>
    ensures { IfOk result (λ it. PutsType spot to (plain_ty ty.now) (plain_ty it)) }
{
    match ty {
        Ty::Block {
            con,
            fields,
            adopts,
        } => Ok(Ty::Block {
            con: *con,
            fields: put_in_names(alloc, fields, spot, to)?,
            adopts: *adopts,
        }),
        Ty::Lock(atoms) => Ok(Ty::Lock(put_in_atoms(alloc, atoms.as_slice(), spot, to)?)),
        _ => ty.copy(alloc),
    }
}

fn put_in_names(alloc: Global, names: &Names, spot: u32, to: u32) -> Result<Names, Memory>
    ensures { IfOk result (λ it. it ≡ slice_set names.now spot to) }
{
    let mut all = names.copy(alloc)?;
    if (spot as usize) < all.len() {
        all.set(spot as usize, to);
    }
    Ok(all)
}

// a list that equals these permissions
fn copy_atoms(alloc: Global, atoms: &[Atom]) -> Result<Atoms, Memory>
    ensures { IfOk result (λ it. it ≡ atoms.now) }
{
    let mut all = Items::new(alloc);
    for i in 0..atoms.len() {
        all.push(atoms[i].copy(alloc)?)?;
    }
    Ok(all)
}
