//! Which permission is offered for a goal: the first of its sort in the class of the goal's name.
//!
//! The index finds permissions by class and by a test of their type; what needs declarations or marks is looked at here,
//! and where that doesn't fit the index is asked again from the next place.
ghost use Rattle.std.specs.Prelude.{◌≡◌, ◌⊎◌, ℕ, List, IfOk, None, length};
ghost use Rattle.mz_tree.specs.Saying.{Says};
ghost use Rattle.mz_tree.specs.View.{plain_atom, plain_ty};
ghost use Rattle.mz_decl.specs.View.{plain_decls};
ghost use Rattle.mz_modes.specs.Affine.{ExclusiveTy};
ghost use Rattle.mz_modes.specs.Modes.{AreModes};
ghost use Rattle.mz_index.specs.Finding.{InClass};
ghost use Rattle.mz_index.specs.Questions.{plain_test};
ghost use Rattle.mz_index.specs.Tests.{Passes};
ghost use Rattle.mz_goal.specs.Goals.{Entry, IsSeen, Unused, atoms};
ghost use Rattle.mz_goal.specs.Marked.{plain_mark, entries};
ghost use Rattle.mz_goal.specs.Offering.{BlockFolds, FirstOffer, IsOffer, OfTy, TyFolds, plain_wanted, test_for};

use crate::marks::{Mark, Marks, mark_at};
use mz_decl::Decls;
use mz_index::{Indexed, Test};
use mz_modes::Modes;
use mz_tree::{Alike, Atom, Memory, Names, Ty};
use std::alloc::Global;

// what is looked for
#[derive(Drop)]
pub(crate) enum Wanted {
    Alike(Ty),
    Exclusive,
    FoldsTo(u32),
}

// the place of the first permission of the sort
pub(crate) fn first_offer(
    alloc: Global,
    decls: &Decls,
    modes: &Modes,
    state: &Indexed,
    marks: &Marks,
    name: u32,
    wanted: &Wanted,
) -> Result<Option<usize>, Memory>
    requires { AreModes (plain_decls decls.now) modes.now }
    ensures { IfOk result (λ it. FirstOffer (plain_decls decls.now) (entries state.now marks.now) name (plain_wanted wanted.now) it) }
{
    let test = test_for(alloc, wanted)?;
    first_by(alloc, decls, modes, state, marks, name, &test, wanted)
}

// the same, with what the index is asked for
fn first_by(
    alloc: Global,
    decls: &Decls,
    modes: &Modes,
    state: &Indexed,
    marks: &Marks,
    name: u32,
    test: &Test,
    wanted: &Wanted,
) -> Result<Option<usize>, Memory>
    requires modes { AreModes (plain_decls decls.now) modes.now }
    requires test { plain_test test.now ≡ test_for (plain_wanted wanted.now) }
    ensures { IfOk result (λ it. FirstOffer (plain_decls decls.now) (entries state.now marks.now) name (plain_wanted wanted.now) it) }
{
    let count = state.len();
    let mut from = 0;
    while let Some(place) = state.first(alloc, name, from, test)? {
        let mark = mark_at(marks, place);
        if suits(decls, modes, state.at(place), mark, wanted) {
            return Ok(Some(place));
        }
        from = place + 1;
    }
    Ok(None)
}

// what the index is asked for
fn test_for(alloc: Global, wanted: &Wanted) -> Result<Test, Memory>
    ensures { IfOk result (λ it. plain_test it ≡ test_for (plain_wanted wanted.now)) }
{
    Ok(match wanted {
        Wanted::Alike(ty) => Test::Alike(ty.copy(alloc)?),
        Wanted::Exclusive => Test::Any,
        Wanted::FoldsTo(_) => Test::Block,
    })
}

// whether what the index has found is of the sort
fn suits(decls: &Decls, modes: &Modes, atom: &Atom, mark: Mark, wanted: &Wanted) -> bool
    requires { AreModes (plain_decls decls.now) modes.now }
    ensures { (R : List Entry) (x : ℕ) → InClass (atoms R) x (Passes (atoms R) (test_for (plain_wanted wanted.now))) (plain_atom atom.now) → Says result (IsOffer (plain_decls decls.now) R x (plain_wanted wanted.now) (record { atom = plain_atom atom.now; mark = plain_mark mark })) }
{
    match wanted {
        Wanted::Alike(_) => is_seen(mark),
        Wanted::Exclusive => {
            if !is_seen(mark) {
                return false;
            }
            is_exclusive(decls, modes, atom)
        }
        Wanted::FoldsTo(number) => {
            if !is_unused(mark) {
                return false;
            }
            folds_to(decls, atom, *number)
        }
    }
}

fn is_seen(mark: Mark) -> bool
    ensures { Says result (IsSeen (plain_mark mark)) }
{
    match mark {
        Mark::Unused => true,
        Mark::Used => true,
        Mark::Aside => false,
    }
}

fn is_unused(mark: Mark) -> bool
    ensures { Says result (plain_mark mark ≡ Unused) }
{
    match mark {
        Mark::Unused => true,
        Mark::Used => false,
        Mark::Aside => false,
    }
}

// whether it is of an exclusive type
fn is_exclusive(decls: &Decls, modes: &Modes, atom: &Atom) -> bool
    requires { AreModes (plain_decls decls.now) modes.now }
    ensures { Says result (OfTy (ExclusiveTy (plain_decls decls.now)) (plain_atom atom.now)) }
{
    match atom {
        Atom::Same { .. } => false,
        Atom::Has { name: _, ty } => modes.exclusive(ty),
    }
}

// whether it is of a block that may be folded to the data type
fn folds_to(decls: &Decls, atom: &Atom, number: u32) -> bool
    ensures { Says result (OfTy (TyFolds (plain_decls decls.now) number) (plain_atom atom.now)) }
{
    match atom {
        Atom::Same { .. } => false,
        Atom::Has { name: _, ty } => match ty {
            Ty::Block {
                con,
                fields,
                adopts,
            } => block_folds(decls, *con, fields, *adopts, number),
            _ => false,
        },
    }
}

// whether a block with these parts may be
fn block_folds(decls: &Decls, con: u32, fields: &Names, adopts: Option<u32>, number: u32) -> bool
    ensures { Says result (BlockFolds (plain_decls decls.now) number con fields.now adopts) }
{
    match decls.con_at(con) {
        None => false,
        Some(made) => {
            if made.variety != number {
                return false;
            }
            if made.fields.len() != fields.len() {
                return false;
            }
            may_adopt(adopts, decls.clause_at(number))
        }
    }
}

// whether a block that adopts the one folds to a data type that adopts the other
fn may_adopt(adopts: Option<u32>, clause: Option<u32>) -> bool
    ensures { Says result ((adopts ≡ None) ⊎ (adopts ≡ clause)) }
{
    if adopts.is_none() {
        return true;
    }
    if adopts == clause {
        return true;
    }
    false
}
