//! Names put for names.
ghost use Rattle.std.specs.Prelude.{◌≡◌, IfOk, map};
ghost use Rattle.mz_tree.specs.Plain.{map_ty, map_atom};
ghost use Rattle.mz_tree.specs.View.{plain_ty, plain_atom, plain_atoms};
ghost use Rattle.mz_tree.specs.Renaming.{name_at};

use mz_tree::{Atom, Atoms, Memory, Names, Ty};
use sqlite_items::Items;
use std::alloc::Global;

/// The permission in which each name i has become the i-th of these names, or the refusal where memory is wanting. It
/// is meant for a permission whose names are all below the number of these; a name past the last would become 0.
pub fn substitute(alloc: Global, atom: &Atom, to: &Names) -> Result<Atom, Memory>
    ensures { IfOk result (λ it. plain_atom it ≡ map_atom (name_at to.now) (plain_atom atom.now)) }
{
    rename_atom(alloc, atom, to.as_slice())
}

#[cycle(substitution)]
fn rename_atom(alloc: Global, atom: &Atom, to: &[u32]) -> Result<Atom, Memory>
    ensures { IfOk result (λ it. plain_atom it ≡ map_atom (name_at to.now) (plain_atom atom.now)) }
{
    Ok(match atom {
        Atom::Has { name, ty } => Atom::Has {
            name: nth_name(to, *name),
            ty: rename_type(alloc, ty, to)?,
        },
        Atom::Same { left, right } => Atom::Same {
            left: nth_name(to, *left),
            right: nth_name(to, *right),
        },
    })
}

#[cycle(substitution)]
fn rename_type(alloc: Global, ty: &Ty, to: &[u32]) -> Result<Ty, Memory>
    ensures { IfOk result (λ it. plain_ty it ≡ map_ty (name_at to.now) (plain_ty ty.now)) }
{
    match ty {
        Ty::Int => Ok(Ty::Int),
        Ty::Unknown => Ok(Ty::Unknown),
        Ty::Dynamic => Ok(Ty::Dynamic),
        Ty::Locked => Ok(Ty::Locked),
        Ty::Named(number) => Ok(Ty::Named(*number)),
        Ty::Function(number) => Ok(Ty::Function(*number)),
        Ty::Block {
            con,
            fields,
            adopts,
        } => Ok(Ty::Block {
            con: *con,
            fields: rename_names(alloc, fields.as_slice(), to)?,
            adopts: *adopts,
        }),
        Ty::Lock(atoms) => Ok(Ty::Lock(rename_atoms(alloc, atoms.as_slice(), to)?)),
    }
}

#[cycle(substitution)]
fn rename_atoms(alloc: Global, atoms: &[Atom], to: &[u32]) -> Result<Atoms, Memory>
    ensures { IfOk result (λ it. plain_atoms it ≡ map (map_atom (name_at to.now)) (plain_atoms atoms.now)) }
{
    let mut done = Items::new(alloc);
    for i in 0..atoms.len() {
        done.push(rename_atom(alloc, &atoms[i], to)?)?;
    }
    Ok(done)
}

fn rename_names(alloc: Global, names: &[u32], to: &[u32]) -> Result<Names, Memory>
    ensures { IfOk result (λ it. it ≡ map (name_at to.now) names.now) }
{
    let mut done = Items::new(alloc);
    for i in 0..names.len() {
        done.push(nth_name(to, names[i]))?;
    }
    Ok(done)
}

fn nth_name(names: &[u32], at: u32) -> u32
    ensures { result ≡ name_at names.now at }
{
    match names.get(at as usize) {
        Some(name) => *name,
        None => 0,
    }
}
