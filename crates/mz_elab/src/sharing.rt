//! The third part of a join: what stands in every branch and names outer names alone.
ghost use Rattle.std.specs.Prelude.{◌≡◌, ℕ, List, IfOk};
ghost use Rattle.mz_tree.specs.Plain.{Atom as PlainAtom};
ghost use Rattle.mz_tree.specs.Saying.{Says};
ghost use Rattle.mz_tree.specs.View.{plain_atom, plain_atoms};
ghost use Rattle.mz_decl.specs.Declarations.{Decls as PlainDecls};
ghost use Rattle.mz_modes.specs.Modes.{AreModes};
ghost use Rattle.mz_elab.specs.Joins.{InAll};
ghost use Rattle.mz_elab.specs.Joining.{AreOuter, SharesAll, SharesOne, TakesOut, TakesOutAll, plain_ends};

use crate::ends::End;
use crate::outer::atom_names;
use mz_index::Indexed;
use mz_modes::Modes;
use mz_tree::{Alike, Atom, Atoms, Memory};
use std::alloc::Global;

// puts what is shared of these permissions at the end of the join
pub(crate) fn share(
    alloc: Global,
    modes: &Modes,
    outer: &[u32],
    these: &Indexed,
    ends: &mut [End],
    join: &mut Atoms,
) -> Result<(), Memory>
    ensures { (D : PlainDecls) (names : List ℕ) (R : List (PlainAtom ℕ)) → AreModes D modes.now → AreOuter outer.now names R → IfOk result (λ _. SharesAll D names R these.now ends.old ends.new (plain_atoms join.old) (plain_atoms join.new)) }
{
    for i in 0..these.len() {
        let atom = these.at(i);
        share_one(alloc, modes, outer, atom, ends, join)?;
    }
    Ok(())
}

// one permission: an affine one is taken out of each branch
fn share_one(
    alloc: Global,
    modes: &Modes,
    outer: &[u32],
    atom: &Atom,
    ends: &mut [End],
    join: &mut Atoms,
) -> Result<(), Memory>
    ensures { (D : PlainDecls) (names : List ℕ) (R : List (PlainAtom ℕ)) → AreModes D modes.now → AreOuter outer.now names R → IfOk result (λ _. SharesOne D names R (plain_atom atom.now) ends.old ends.new (plain_atoms join.old) (plain_atoms join.new)) }
{
    if !atom_names(atom, outer, 0) {
        return Ok(());
    }
    if !in_all(ends, atom) {
        return Ok(());
    }
    let more = atom.copy(alloc)?;
    if modes.duplicable(atom) {
        join.push(more)?;
        return Ok(());
    }
    take_out_all(ends, atom);
    join.push(more)?;
    Ok(())
}

// whether the permission stands in every branch
fn in_all(ends: &[End], atom: &Atom) -> bool
    ensures { Says result (InAll (plain_atom atom.now) (plain_ends ends.now)) }
{
    for k in 0..ends.len() {
        let end = &ends[k];
        if !end.state.has(atom) {
            return false;
        }
    }
    true
}

// takes it out of each
fn take_out_all(ends: &mut [End], atom: &Atom)
    ensures { TakesOutAll (plain_atom atom.now) ends.old ends.new }
{
    for k in 0..ends.len() {
        take_out(&mut ends[k], atom);
    }
}

fn take_out(end: &mut End, atom: &Atom)
    ensures { TakesOut (plain_atom atom.now) end.old end.new }
{
    end.state.remove(atom);
}
