//! Permissions with the branch's value for the name that the command binds.
ghost use Rattle.std.specs.Prelude.{◌≡◌, IfOk, map};
ghost use Rattle.mz_tree.specs.Plain.{map_ty, map_atom};
ghost use Rattle.mz_tree.specs.View.{plain_ty, plain_atom, plain_atoms};
ghost use Rattle.mz_deriv.specs.Walks.{in_place_of};

use mz_tree::{Alike, Atom, Atoms, Memory, Names, Ty};
use sqlite_items::Items;
use std::alloc::Global;

// each of the permissions with the name `new` wherever `old` stands in it
#[cycle(values)]
pub(crate) fn atoms_with(alloc: Global, atoms: &[Atom], old: u32, new: u32) -> Result<Atoms, Memory>
    ensures { IfOk result (λ it. plain_atoms it ≡ map (map_atom (in_place_of old new)) (plain_atoms atoms.now)) }
{
    let mut done = Items::new(alloc);
    for i in 0..atoms.len() {
        done.push(atom_with(alloc, &atoms[i], old, new)?)?;
    }
    Ok(done)
}

// one permission
#[cycle(values)]
pub(crate) fn atom_with(alloc: Global, atom: &Atom, old: u32, new: u32) -> Result<Atom, Memory>
    ensures { IfOk result (λ it. plain_atom it ≡ map_atom (in_place_of old new) (plain_atom atom.now)) }
{
    Ok(match atom {
        Atom::Has { name, ty } => Atom::Has {
            name: in_place_of(old, new, *name),
            ty: type_with(alloc, ty, old, new)?,
        },
        Atom::Same { left, right } => Atom::Same {
            left: in_place_of(old, new, *left),
            right: in_place_of(old, new, *right),
        },
    })
}

#[cycle(values)]
fn type_with(alloc: Global, ty: &Ty, old: u32, new: u32) -> Result<Ty, Memory>
    ensures { IfOk result (λ it. plain_ty it ≡ map_ty (in_place_of old new) (plain_ty ty.now)) }
{
    match ty {
        Ty::Int => Ok(Ty::Int),
        Ty::Unknown => Ok(Ty::Unknown),
        Ty::Dynamic => Ok(Ty::Dynamic),
        Ty::Locked => Ok(Ty::Locked),
        Ty::Named(number) => Ok(Ty::Named(*number)),
        Ty::Function(number) => Ok(Ty::Function(*number)),
        Ty::Block {
            con,
            fields,
            adopts,
        } => Ok(Ty::Block {
            con: *con,
            fields: names_with(alloc, fields.as_slice(), old, new)?,
            adopts: *adopts,
        }),
        Ty::Lock(atoms) => Ok(Ty::Lock(atoms_with(alloc, atoms.as_slice(), old, new)?)),
    }
}

fn names_with(alloc: Global, names: &[u32], old: u32, new: u32) -> Result<Names, Memory>
    ensures { IfOk result (λ it. it ≡ map (in_place_of old new) names.now) }
{
    let mut done = Items::new(alloc);
    for i in 0..names.len() {
        done.push(in_place_of(old, new, names[i]))?;
    }
    Ok(done)
}

// the one name for the other
fn in_place_of(old: u32, new: u32, name: u32) -> u32
    ensures { result ≡ in_place_of old new name }
{
    if name == old { new } else { name }
}
