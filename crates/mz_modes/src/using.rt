//! Using permissions up.
ghost use Rattle.mz_tree.specs.View.{plain_atom, plain_atoms};
ghost use Rattle.mz_decl.specs.Declarations.{Decls as PlainDecls};
ghost use Rattle.mz_perm.specs.Using.{UsesUpAllBy};
ghost use Rattle.mz_modes.specs.Affine.{AffineAtom};
ghost use Rattle.mz_modes.specs.Modes.{AreModes};
ghost use Rattle.mz_modes.specs.Answers.{Answers, Used, UsedAll};

use crate::{Modes, RuleFault};
use mz_perm::State;
use mz_tree::{Atom, Atoms};
use std::alloc::Global;

/// Uses the permission up: one copy, the first, is taken out where it is affine, and where it is duplicable it only has
/// to be held. Where it isn't held the answer is no, and the state stays as it is. It takes no memory.
pub fn use_up(modes: &Modes, state: &mut State, atom: &Atom) -> bool
    ensures { (D : PlainDecls) → AreModes D modes.now → Used result (AffineAtom D) (plain_atom atom.now) state.old state.new }
{
    if modes.duplicable(atom) {
        return state.has(atom);
    }
    state.remove(atom)
}

/// Uses the permissions up, one after the other, so that an affine one that stands there twice must be held twice. Where
/// one can't be used up, or memory is wanting, the state stays as it is.
pub fn use_up_all(
    alloc: Global,
    modes: &Modes,
    state: &mut State,
    atoms: &Atoms,
) -> Result<(), RuleFault>
    ensures { (D : PlainDecls) → AreModes D modes.now → Answers (λ which. UsesUpAllBy which (AffineAtom D) (plain_atoms atoms.now) state.old) state.old state.new result }
{
    let mut next = state.copy(alloc)?;
    if !use_each(modes, &mut next, atoms.as_slice()) {
        return Err(RuleFault::NoInstance);
    }
    *state = next;
    Ok(())
}

// uses the permissions up, one after the other; where one can't be, some of those before it may be gone
fn use_each(modes: &Modes, state: &mut State, atoms: &[Atom]) -> bool
    ensures { (D : PlainDecls) → AreModes D modes.now → UsedAll result (AffineAtom D) (plain_atoms atoms.now) state.old state.new }
{
    for i in 0..atoms.len() {
        if !use_up(modes, state, &atoms[i]) {
            return false;
        }
    }
    true
}
