//! The last part of a join: what was held at a data type before the branches, and each branch can give again.
ghost use Rattle.std.specs.Prelude.{◌≡◌, IfOk};
ghost use Rattle.mz_tree.specs.Saying.{Says};
ghost use Rattle.mz_tree.specs.View.{plain_atom, plain_atoms, plain_ty};
ghost use Rattle.mz_decl.specs.View.{plain_decls};
ghost use Rattle.mz_modes.specs.Modes.{AreModes};
ghost use Rattle.mz_elab.specs.Standing.{IsKnown};
ghost use Rattle.mz_elab.specs.Joins.{HasData, IsWanting, OfData};
ghost use Rattle.mz_elab.specs.Joining.{IsOf, RestoresAll, RestoresOne};

use crate::ends::End;
use crate::finding::is_con_of;
use crate::trying::try_all;
use mz_decl::Decls;
use mz_index::Indexed;
use mz_modes::Modes;
use mz_tree::{Alike, Atom, Atoms, Memory, Ty};
use std::alloc::Global;

// puts what each branch can give again of the state before at the end of the join
pub(crate) fn restore(
    alloc: Global,
    decls: &Decls,
    modes: &Modes,
    bound: &[u32],
    next: u32,
    to: u32,
    before: &Indexed,
    ends: &mut [End],
    join: &mut Atoms,
) -> Result<(), Memory>
    requires { AreModes (plain_decls decls.now) modes.now }
    ensures { IfOk result (λ _. RestoresAll (plain_decls decls.now) (IsKnown bound.now next) to before.now (plain_atoms join.old) ends.old ends.new (plain_atoms join.new)) }
{
    for i in 0..before.len() {
        let atom = before.at(i);
        restore_one(alloc, decls, modes, bound, next, to, atom, ends, join)?;
    }
    Ok(())
}

// one permission of the state before
fn restore_one(
    alloc: Global,
    decls: &Decls,
    modes: &Modes,
    bound: &[u32],
    next: u32,
    to: u32,
    atom: &Atom,
    ends: &mut [End],
    join: &mut Atoms,
) -> Result<(), Memory>
    requires { AreModes (plain_decls decls.now) modes.now }
    ensures { IfOk result (λ _. RestoresOne (plain_decls decls.now) (IsKnown bound.now next) to (plain_atoms join.old) (plain_atom atom.now) ends.old ends.new (plain_atoms join.new)) }
{
    if !is_wanting(decls, join.as_slice(), atom) {
        return Ok(());
    }
    if !try_all(alloc, decls, modes, bound, next, to, atom, ends)? {
        return Ok(());
    }
    join.push(atom.copy(alloc)?)?;
    Ok(())
}

// whether the permission is of a data type of which the join has nothing for its name
fn is_wanting(decls: &Decls, join: &[Atom], atom: &Atom) -> bool
    ensures { Says result (IsWanting (plain_decls decls.now) (plain_atoms join.now) (plain_atom atom.now)) }
{
    match atom {
        Atom::Same { .. } => false,
        Atom::Has { name, ty } => match ty {
            Ty::Named(number) => !has_data(decls, join, *name, *number),
            _ => false,
        },
    }
}

// whether the join has the name at the data type or at a block of one of its constructors
fn has_data(decls: &Decls, join: &[Atom], name: u32, number: u32) -> bool
    ensures { Says result (HasData (plain_decls decls.now) name number (plain_atoms join.now)) }
{
    for i in 0..join.len() {
        if is_of(decls, &join[i], name, number) {
            return true;
        }
    }
    false
}

fn is_of(decls: &Decls, atom: &Atom, name: u32, number: u32) -> bool
    ensures { Says result (IsOf (plain_decls decls.now) name number (plain_atom atom.now)) }
{
    match atom {
        Atom::Same { .. } => false,
        Atom::Has { name: found, ty } => {
            if *found != name {
                return false;
            }
            of_data(decls, ty, number)
        }
    }
}

fn of_data(decls: &Decls, ty: &Ty, number: u32) -> bool
    ensures { Says result (OfData (plain_decls decls.now) number (plain_ty ty.now)) }
{
    match ty {
        Ty::Named(found) => *found == number,
        Ty::Block { con, .. } => is_con_of(decls, *con, number),
        _ => false,
    }
}
