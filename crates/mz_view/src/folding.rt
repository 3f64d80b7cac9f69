//! The rule fold.
ghost use Rattle.std.specs.Prelude.{◌≡◌, ◌↔◌, ◌⊎◌, IsTrue, None};
ghost use Rattle.mz_tree.specs.Plain.{Has_atom, Block_type};
ghost use Rattle.mz_tree.specs.View.{plain_atom};
ghost use Rattle.mz_decl.specs.View.{plain_decls};
ghost use Rattle.mz_modes.specs.Modes.{AreModes};
ghost use Rattle.mz_view.specs.Rules.{OnBlock, Folds};
ghost use Rattle.mz_view.specs.Answers.{Becomes, Gives};

use crate::ViewFault;
use crate::using::use_contents;
use mz_decl::Decls;
use mz_modes::{Modes, use_up};
use mz_perm::State;
use mz_tree::{Atom, Names, Ty};
use std::alloc::Global;

// folds the structural permission
pub(crate) fn fold(
    alloc: Global,
    decls: &Decls,
    modes: &Modes,
    state: &mut State,
    atom: &Atom,
) -> Result<(), ViewFault>
    requires { AreModes (plain_decls decls.now) modes.now }
    ensures { Becomes (λ which T. OnBlock (plain_atom atom.now) (λ x con ys clause. Folds which (plain_decls decls.now) state.old x con ys clause T)) state.old state.new result }
{
    match atom {
        Atom::Same { .. } => Err(ViewFault::NotAnInstance),
        Atom::Has { name, ty } => match ty {
            Ty::Block {
                con,
                fields,
                adopts,
            } => {
                *state = folded(
                    alloc, decls, modes, state, atom, *name, *con, fields, *adopts,
                )?;
                Ok(())
            }
            _ => Err(ViewFault::NotAnInstance),
        },
    }
}

// the state in which this permission, whose parts these are, is folded
fn folded(
    alloc: Global,
    decls: &Decls,
    modes: &Modes,
    state: &State,
    atom: &Atom,
    name: u32,
    con: u32,
    fields: &Names,
    adopts: Option<u32>,
) -> Result<State, ViewFault>
    requires modes { AreModes (plain_decls decls.now) modes.now }
    requires parts { plain_atom atom.now ≡ Has_atom name (Block_type con fields.now adopts) }
    ensures { Gives (λ which. Folds which (plain_decls decls.now) state.now name con fields.now adopts) result }
{
    let made = match decls.con_at(con) {
        Some(made) => made,
        None => return Err(ViewFault::NotAnInstance),
    };
    let contents = made.fields.as_slice();
    if fields.len() != contents.len() {
        return Err(ViewFault::NotAnInstance);
    }
    if !may_fold(adopts, decls.clause_at(made.variety)) {
        return Err(ViewFault::NotAnInstance);
    }
    let mut next = state.copy(alloc)?;
    if !use_up(modes, &mut next, atom) {
        return Err(ViewFault::NotAnInstance);
    }
    if !use_contents(alloc, decls, modes, &mut next, contents, fields)? {
        return Err(ViewFault::NotAnInstance);
    }
    next.add(Atom::Has {
        name,
        ty: Ty::Named(made.variety),
    })?;
    Ok(next)
}

// whether a block that adopts the one folds to a data type that adopts the other
fn may_fold(adopts: Option<u32>, clause: Option<u32>) -> bool
    ensures { IsTrue result ↔ (adopts ≡ None) ⊎ (adopts ≡ clause) }
{
    adopts.is_none() || adopts == clause
}
