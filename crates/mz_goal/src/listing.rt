//! The names in a type, in written order, and one of them changed.
ghost use Rattle.std.specs.Prelude.{◌≡◌, ◌++◌, IfOk, slice_set};
ghost use Rattle.mz_tree.specs.Plain.{atoms_of};
ghost use Rattle.mz_tree.specs.View.{plain_ty, plain_atom, plain_atoms};
ghost use Rattle.mz_view.specs.Spots.{names_in, names_in_atom, names_in_type, Puts, PutsAtom, PutsType};

use mz_tree::{Alike, Atom, Atoms, Memory, Names, Ty};
use sqlite_items::Items;
use std::alloc::Global;

// the names in a type
pub(crate) fn names_of_type(alloc: Global, ty: &Ty) -> Result<Names, Memory>
    ensures { IfOk result (λ it. it ≡ names_in_type (plain_ty ty.now)) }
{
    let mut names = Items::new(alloc);
    list_type(ty, &mut names)?;
    Ok(names)
}

fn names_of_atom(alloc: Global, atom: &Atom) -> Result<Names, Memory>
    ensures { IfOk result (λ it. it ≡ names_in_atom (plain_atom atom.now)) }
{
    let mut names = Items::new(alloc);
    list_atom(atom, &mut names)?;
    Ok(names)
}

// adds the names to a list
#[cycle(listing)]
fn list_type(ty: &Ty, names: &mut Names) -> Result<(), Memory>
    ensures { IfOk result (λ _. names.new ≡ names.old ++ names_in_type (plain_ty ty.now)) }
{
    match ty {
        Ty::Block { fields, .. } => list_names(fields.as_slice(), names),
        Ty::Lock(atoms) => list_atoms(atoms.as_slice(), names),
        _ => Ok(()),
    }
}

#[cycle(listing)]
fn list_atom(atom: &Atom, names: &mut Names) -> Result<(), Memory>
    ensures { IfOk result (λ _. names.new ≡ names.old ++ names_in_atom (plain_atom atom.now)) }
{
    match atom {
        Atom::Has { name, ty } => {
            names.push(*name)?;
            list_type(ty, names)
        }
        Atom::Same { left, right } => {
            names.push(*left)?;
            names.push(*right)?;
            Ok(())
        }
    }
}

#[cycle(listing)]
fn list_atoms(atoms: &[Atom], names: &mut Names) -> Result<(), Memory>
    ensures { IfOk result (λ _. names.new ≡ names.old ++ names_in (atoms_of (plain_atoms atoms.now))) }
{
    for i in 0..atoms.len() {
        list_atom(&atoms[i], names)?;
    }
    Ok(())
}

fn list_names(more: &[u32], names: &mut Names) -> Result<(), Memory>
    ensures { IfOk result (λ _. names.new ≡ names.old ++ more.now) }
{
    for i in 0..more.len() {
        names.push(more[i])?;
    }
    Ok(())
}

// the type with another name at a place
#[cycle(putting)]
pub(crate) fn put_in_type(alloc: Global, ty: &Ty, spot: usize, to: u32) -> Result<Ty, Memory>
    ensures { IfOk result (λ it. PutsType spot to (plain_ty ty.now) (plain_ty it)) }
{
    match ty {
        Ty::Block {
            con,
            fields,
            adopts,
        } => Ok(Ty::Block {
            con: *con,
            fields: put_in_names(alloc, fields, spot, to)?,
            adopts: *adopts,
        }),
        Ty::Lock(atoms) => Ok(Ty::Lock(put_in_atoms(alloc, atoms.as_slice(), spot, to)?)),
        _ => ty.copy(alloc),
    }
}

// all stays where the place is past the last name
#[cycle(putting)]
fn put_in_atoms(alloc: Global, atoms: &[Atom], spot: usize, to: u32) -> Result<Atoms, Memory>
    ensures { IfOk result (λ it. Puts spot to (atoms_of (plain_atoms atoms.now)) (atoms_of (plain_atoms it))) }
{
    let mut left = spot;
    for i in 0..atoms.len() {
        let atom = &atoms[i];
        let names = names_of_atom(alloc, atom)?;
        if left < names.len() {
            let mut all = copy_atoms(alloc, atoms)?;
            all.set(i, put_in_atom(alloc, atom, left, to)?);
            return Ok(all);
        }
        left -= names.len();
    }
    copy_atoms(alloc, atoms)
}

#[cycle(putting)]
fn put_in_atom(alloc: Global, atom: &Atom, spot: usize, to: u32) -> Result<Atom, Memory>
    ensures { IfOk result (λ it. PutsAtom spot to (plain_atom atom.now) (plain_atom it)) }
{
    match atom {
        Atom::Has { name, ty } => {
            if spot == 0 {
                return Ok(Atom::Has {
                    name: to,
                    ty: ty.copy(alloc)?,
                });
            }
            Ok(Atom::Has {
                name: *name,
                ty: put_in_type(alloc, ty, spot - 1, to)?,
            })
        }
        Atom::Same { left, right } => {
            if spot == 0 {
                return Ok(Atom::Same {
                    left: to,
                    right: *right,
                });
            }
            if spot == 1 {
                return Ok(Atom::Same {
                    left: *left,
                    right: to,
                });
            }
            Ok(Atom::Same {
                left: *left,
                right: *right,
            })
        }
    }
}

fn put_in_names(alloc: Global, names: &Names, spot: usize, to: u32) -> Result<Names, Memory>
    ensures { IfOk result (λ it. it ≡ slice_set names.now spot to) }
{
    let mut all = names.copy(alloc)?;
    if spot < all.len() {
        all.set(spot, to);
    }
    Ok(all)
}

// a list that equals these permissions
fn copy_atoms(alloc: Global, atoms: &[Atom]) -> Result<Atoms, Memory>
    ensures { IfOk result (λ it. it ≡ atoms.now) }
{
    let mut all = Items::new(alloc);
    for i in 0..atoms.len() {
        all.push(atoms[i].copy(alloc)?)?;
    }
    Ok(all)
}
