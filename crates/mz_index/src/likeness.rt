//! Types that are alike: they are equal once each name has become its label.
ghost use Rattle.std.specs.Prelude.{◌≡◌, List, ℕ, IfOk, map};
ghost use Rattle.mz_tree.specs.Plain.{Atom as PlainAtom, map_ty, map_atom};
ghost use Rattle.mz_tree.specs.Saying.{Says};
ghost use Rattle.mz_tree.specs.View.{plain_ty, plain_atom, plain_atoms};
ghost use Rattle.mz_index.specs.Labels.{AreLabels, label};
ghost use Rattle.mz_index.specs.Classes.{AreAlike};

use crate::labels::{Link, label};
use mz_tree::{Alike, Atom, Atoms, Memory, Names, Ty};
use sqlite_items::Items;
use std::alloc::Global;

// whether the types are equal up to names that have one label
pub(crate) fn are_alike(
    alloc: Global,
    links: &[Link],
    left: &Ty,
    right: &Ty,
) -> Result<bool, Memory>
    ensures { (R : List (PlainAtom ℕ)) → AreLabels links.now R → IfOk result (λ it. Says it (AreAlike R (plain_ty left.now) (plain_ty right.now))) }
{
    let one = labelled_type(alloc, links, left)?;
    let other = labelled_type(alloc, links, right)?;
    if one.same(&other) {
        return Ok(true);
    }
    Ok(false)
}

// the type with each name's label for it
#[cycle(labelling)]
fn labelled_type(alloc: Global, links: &[Link], ty: &Ty) -> Result<Ty, Memory>
    ensures { IfOk result (λ it. plain_ty it ≡ map_ty (label links.now) (plain_ty ty.now)) }
{
    match ty {
        Ty::Int => Ok(Ty::Int),
        Ty::Unknown => Ok(Ty::Unknown),
        Ty::Dynamic => Ok(Ty::Dynamic),
        Ty::Locked => Ok(Ty::Locked),
        Ty::Named(number) => Ok(Ty::Named(*number)),
        Ty::Function(number) => Ok(Ty::Function(*number)),
        Ty::Block {
            con,
            fields,
            adopts,
        } => Ok(Ty::Block {
            con: *con,
            fields: labelled_names(alloc, links, fields.as_slice())?,
            adopts: *adopts,
        }),
        Ty::Lock(atoms) => Ok(Ty::Lock(labelled_atoms(alloc, links, atoms.as_slice())?)),
    }
}

#[cycle(labelling)]
fn labelled_atom(alloc: Global, links: &[Link], atom: &Atom) -> Result<Atom, Memory>
    ensures { IfOk result (λ it. plain_atom it ≡ map_atom (label links.now) (plain_atom atom.now)) }
{
    Ok(match atom {
        Atom::Has { name, ty } => Atom::Has {
            name: label(links, *name),
            ty: labelled_type(alloc, links, ty)?,
        },
        Atom::Same { left, right } => Atom::Same {
            left: label(links, *left),
            right: label(links, *right),
        },
    })
}

#[cycle(labelling)]
fn labelled_atoms(alloc: Global, links: &[Link], atoms: &[Atom]) -> Result<Atoms, Memory>
    ensures { IfOk result (λ it. plain_atoms it ≡ map (map_atom (label links.now)) (plain_atoms atoms.now)) }
{
    let mut done = Items::new(alloc);
    for i in 0..atoms.len() {
        done.push(labelled_atom(alloc, links, &atoms[i])?)?;
    }
    Ok(done)
}

fn labelled_names(alloc: Global, links: &[Link], names: &[u32]) -> Result<Names, Memory>
    ensures { IfOk result (λ it. it ≡ map (label links.now) names.now) }
{
    let mut done = Items::new(alloc);
    for i in 0..names.len() {
        done.push(label(links, names[i]))?;
    }
    Ok(done)
}
