//! The names that are known outside of the branches of a command: those that are bound, and of the names that were made those
//! that occur in the state before it.
ghost use Rattle.std.specs.Prelude.{◌≡◌, ◌==◌, ℕ, List, IfOk};
ghost use Rattle.std.specs.List.{list_any};
ghost use Rattle.mz_tree.specs.View.{plain_atom, plain_atoms, plain_ty};
ghost use Rattle.mz_perm.specs.Occurrence.{in_atom, in_type, occurs};
ghost use Rattle.mz_deriv.specs.Parts.{SameNames};
ghost use Rattle.mz_elab.specs.Joining.{AreOuter};
ghost use Rattle.mz_elab.specs.Naming.{AddsNames};

use mz_index::Indexed;
use mz_tree::{Atom, Memory, Names, Ty};
use sqlite_items::Items;
use std::alloc::Global;

// the outer names
pub(crate) fn outer_names(alloc: Global, bound: &[u32], before: &Indexed) -> Result<Names, Memory>
    ensures { (names : List ℕ) → SameNames bound.now names → IfOk result (λ it. AreOuter it names before.now) }
{
    let mut outer = copied(alloc, bound)?;
    for i in 0..before.len() {
        add_atom(before.at(i), &mut outer)?;
    }
    Ok(outer)
}

pub(crate) fn copied(alloc: Global, names: &[u32]) -> Result<Names, Memory>
    ensures { IfOk result (λ it. it ≡ names.now) }
{
    let mut all = Items::new(alloc);
    for i in 0..names.len() {
        all.push(names[i])?;
    }
    Ok(all)
}

// adds the made names of a permission
#[cycle(naming)]
fn add_atom(atom: &Atom, names: &mut Names) -> Result<(), Memory>
    ensures { IfOk result (λ _. AddsNames (λ n. in_atom n (plain_atom atom.now)) names.old names.new) }
{
    match atom {
        Atom::Has { name, ty } => {
            add_one(*name, names)?;
            add_type(ty, names)?;
            Ok(())
        }
        Atom::Same { left, right } => {
            add_one(*left, names)?;
            add_one(*right, names)?;
            Ok(())
        }
    }
}

// those of a type
#[cycle(naming)]
fn add_type(ty: &Ty, names: &mut Names) -> Result<(), Memory>
    ensures { IfOk result (λ _. AddsNames (λ n. in_type n (plain_ty ty.now)) names.old names.new) }
{
    match ty {
        Ty::Block { fields, .. } => {
            add_each(fields.as_slice(), names)?;
            Ok(())
        }
        Ty::Lock(atoms) => {
            add_atoms(atoms.as_slice(), names)?;
            Ok(())
        }
        _ => Ok(()),
    }
}

// those of several permissions
#[cycle(naming)]
fn add_atoms(atoms: &[Atom], names: &mut Names) -> Result<(), Memory>
    ensures { IfOk result (λ _. AddsNames (λ n. occurs n (plain_atoms atoms.now)) names.old names.new) }
{
    for i in 0..atoms.len() {
        add_atom(&atoms[i], names)?;
    }
    Ok(())
}

// those of these names
fn add_each(fields: &[u32], names: &mut Names) -> Result<(), Memory>
    ensures { IfOk result (λ _. AddsNames (λ n. list_any (λ m. m == n) fields.now) names.old names.new) }
{
    for i in 0..fields.len() {
        add_one(fields[i], names)?;
    }
    Ok(())
}

// one name, where it was made
fn add_one(name: u32, names: &mut Names) -> Result<(), Memory>
    ensures { IfOk result (λ _. AddsNames (λ n. name == n) names.old names.new) }
{
    if name >= 256 {
        names.push(name)?;
    }
    Ok(())
}
