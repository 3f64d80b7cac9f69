//! A goal of a data type, by a block: the block that is opened, and what is folded of it.
//!
//! An opened block stands at the end of the state that the steps lead to, under the goal's name, while the goals of its
//! fields are met. Then it is folded with them, what the fold leaves is dropped, and of a duplicable whole a copy is kept.
ghost use Rattle.std.specs.Prelude.{◌≡◌, ◌++◌, ◌∷◌, [], ℕ, List, Option, IfOk, Some, map, slice_get, slice_set, remove};
ghost use Rattle.mz_tree.specs.Plain.{Ty as PlainTy, Has_atom, Named_type, Block_type, Dynamic_type};
ghost use Rattle.mz_tree.specs.Programs.{Con};
ghost use Rattle.mz_tree.specs.View.{plain_ty, plain_atom, plain_atoms, plain_field};
ghost use Rattle.mz_decl.specs.Contents.{contents};
ghost use Rattle.mz_decl.specs.Declarations.{Decls as PlainDecls};
ghost use Rattle.mz_decl.specs.View.{plain_decls};
ghost use Rattle.mz_modes.specs.Affine.{AffineTy, ExclusiveTy};
ghost use Rattle.mz_modes.specs.Modes.{AreModes};
ghost use Rattle.mz_perm.specs.Joining.{Joined};
ghost use Rattle.mz_view.specs.Steps.{plain_steps};
ghost use Rattle.mz_goal.specs.Goals.{Used, unused, Closed};
ghost use Rattle.mz_goal.specs.Changing.{DropsKept};
ghost use Rattle.mz_goal.specs.Folding.{IsWhole, OpensWhole, Opens, Ends, DropsEach};
ghost use Rattle.mz_goal.specs.Marked.{entries};
ghost use Rattle.mz_goal.specs.Offering.{OfferAt, Folding_wanted};
ghost use Rattle.mz_goal.specs.Added.{Added};

use crate::marks::{Mark, Marks, add, set_mark, take};
use crate::naming::{drop_kept, has, rename};
use crate::offers::{Wanted, first_offer};
use crate::taking::subject_at;
use mz_decl::Decls;
use mz_index::Indexed;
use mz_modes::Modes;
use mz_perm::substitute;
use mz_tree::{Alike, Atom, Atoms, Field, Memory, Names, Ty};
use mz_view::{ViewStep, ViewSteps};
use sqlite_items::Items;
use std::alloc::Global;

// the type of a block that was opened, and the goals of its fields
#[derive(Drop)]
pub(crate) struct Whole {
    pub(crate) block: Ty,
    pub(crate) goals: Atoms,
}

// opens the first block that may be folded to the data type
pub(crate) fn open(
    alloc: Global,
    decls: &Decls,
    modes: &Modes,
    state: &mut Indexed,
    marks: &mut Marks,
    name: u32,
    number: u32,
    steps: &mut ViewSteps,
) -> Result<Option<Whole>, Memory>
    requires { AreModes (plain_decls decls.now) modes.now }
    ensures { IfOk result (λ it. Opens it (plain_decls decls.now) (entries state.old marks.old) name number (entries state.new marks.new) steps.old steps.new) }
{
    match first_offer(
        alloc,
        decls,
        modes,
        state,
        marks,
        name,
        &Wanted::FoldsTo(number),
    )? {
        None => Ok(None),
        Some(place) => Ok(Some(open_at(
            alloc, decls, modes, state, marks, place, name, number, steps,
        )?)),
    }
}

// opens the block at this place
fn open_at(
    alloc: Global,
    decls: &Decls,
    modes: &Modes,
    state: &mut Indexed,
    marks: &mut Marks,
    place: usize,
    name: u32,
    number: u32,
    steps: &mut ViewSteps,
) -> Result<Whole, Memory>
    requires modes { AreModes (plain_decls decls.now) modes.now }
    requires offer { OfferAt (plain_decls decls.now) (entries state.old marks.old) name (Folding_wanted number) place }
    ensures { IfOk result (λ it. OpensWhole (plain_decls decls.now) (entries state.old marks.old) name number (plain_ty it.block) (plain_atoms it.goals) (entries state.new marks.new) steps.old steps.new) }
{
    let subject = subject_at(state, place);
    let block = type_at(alloc, state, place)?;
    let goals = goals_of(alloc, decls, &block)?;
    if modes.exclusive(&block) {
        take_out(
            alloc, decls, modes, state, marks, place, subject, &block, name, steps,
        )?;
        return Ok(Whole { block, goals });
    }
    leave(
        alloc, decls, modes, state, marks, place, subject, &block, name, steps,
    )?;
    Ok(Whole { block, goals })
}

// a copy of the type at this place; an equation has none
fn type_at(alloc: Global, state: &Indexed, place: usize) -> Result<Ty, Memory>
    requires { (y : ℕ) × (u : PlainTy ℕ) × (slice_get state.now place ≡ Some (Has_atom y u)) }
    ensures { (y : ℕ) (u : PlainTy ℕ) → slice_get state.now place ≡ Some (Has_atom y u) → IfOk result (λ it. plain_ty it ≡ u) }
{
    match state.at(place) {
        Atom::Has { name: _, ty } => ty.copy(alloc),
        Atom::Same { .. } => Ok(Ty::Unknown),
    }
}

// the contents of the fields of a block
fn goals_of(alloc: Global, decls: &Decls, block: &Ty) -> Result<Atoms, Memory>
    ensures { (con : ℕ) (ys : List ℕ) (clause : Option ℕ) (made : Con) → plain_ty block.now ≡ Block_type con ys clause → slice_get (plain_decls decls.now).cons con ≡ Some made → IfOk result (λ it. plain_atoms it ≡ contents ys made.fields) }
{
    match block {
        Ty::Block { con, fields, .. } => con_goals(alloc, decls, *con, fields),
        _ => Ok(Items::new(alloc)),
    }
}

fn con_goals(alloc: Global, decls: &Decls, con: u32, names: &Names) -> Result<Atoms, Memory>
    ensures { (made : Con) → slice_get (plain_decls decls.now).cons con ≡ Some made → IfOk result (λ it. plain_atoms it ≡ contents names.now made.fields) }
{
    match decls.con_at(con) {
        None => Ok(Items::new(alloc)),
        Some(made) => contents_of(alloc, made.fields.as_slice(), names),
    }
}

// the content of each field, with these names for the fields
fn contents_of(alloc: Global, fields: &[Field], names: &Names) -> Result<Atoms, Memory>
    ensures { IfOk result (λ it. plain_atoms it ≡ contents names.now (map plain_field fields.now)) }
{
    let mut all = Items::new(alloc);
    for i in 0..fields.len() {
        all.push(substitute(alloc, &fields[i].content, names)?)?;
    }
    Ok(all)
}

// a mutable block goes, and may be adopted
fn take_out(
    alloc: Global,
    decls: &Decls,
    modes: &Modes,
    state: &mut Indexed,
    marks: &mut Marks,
    place: usize,
    subject: u32,
    block: &Ty,
    name: u32,
    steps: &mut ViewSteps,
) -> Result<(), Memory>
    requires modes { AreModes (plain_decls decls.now) modes.now }
    requires stands { slice_get state.old place ≡ Some (Has_atom subject (plain_ty block.now)) }
    requires joined { Joined state.old name subject }
    requires mutable { ExclusiveTy (plain_decls decls.now) (plain_ty block.now) }
    ensures opened { IfOk result (λ _. entries state.new marks.new ≡ remove (entries state.old marks.old) place ++ unused (Has_atom subject Dynamic_type) ∷ []) }
    ensures leads { IfOk result (λ _. Added (plain_decls decls.now) state.old (plain_steps steps.old) (plain_steps steps.new) (state.new ++ Has_atom name (plain_ty block.now) ∷ [])) }
{
    steps.push(ViewStep::Dynamic { name: subject })?;
    take(state, marks, place);
    add(
        state,
        marks,
        Atom::Has {
            name: subject,
            ty: Ty::Dynamic,
        },
    )?;
    rename(alloc, modes, state, subject, block, name, steps)
}

// another stays, and is used
fn leave(
    alloc: Global,
    decls: &Decls,
    modes: &Modes,
    state: &Indexed,
    marks: &mut Marks,
    place: usize,
    subject: u32,
    block: &Ty,
    name: u32,
    steps: &mut ViewSteps,
) -> Result<(), Memory>
    requires modes { AreModes (plain_decls decls.now) modes.now }
    requires stands { slice_get state.now place ≡ Some (Has_atom subject (plain_ty block.now)) }
    requires joined { Joined state.now name subject }
    requires plain { AffineTy (plain_decls decls.now) (plain_ty block.now) → ⊥ }
    ensures opened { IfOk result (λ _. entries state.now marks.new ≡ slice_set (entries state.now marks.old) place (record { atom = Has_atom subject (plain_ty block.now); mark = Used })) }
    ensures leads { IfOk result (λ _. Added (plain_decls decls.now) state.now (plain_steps steps.old) (plain_steps steps.new) (state.now ++ Has_atom name (plain_ty block.now) ∷ [])) }
{
    steps.push(ViewStep::Copy {
        atom: has(alloc, subject, block)?,
    })?;
    set_mark(marks, place, Mark::Used)?;
    rename(alloc, modes, state, subject, block, name, steps)
}

// folds the block, whose fields' goals are met
pub(crate) fn close(
    alloc: Global,
    decls: &Decls,
    modes: &Modes,
    state: &mut Indexed,
    marks: &mut Marks,
    name: u32,
    number: u32,
    whole: &Whole,
    steps: &mut ViewSteps,
) -> Result<(), Memory>
    requires modes { AreModes (plain_decls decls.now) modes.now }
    requires whole { IsWhole (plain_decls decls.now) number (plain_ty whole.now.block) (plain_atoms whole.now.goals) }
    ensures { IfOk result (λ _. Ends (plain_decls decls.now) (entries state.old marks.old) name number (plain_ty whole.now.block) (plain_atoms whole.now.goals) (entries state.new marks.new) steps.old steps.new) }
{
    steps.push(ViewStep::Fold {
        atom: has(alloc, name, &whole.block)?,
    })?;
    drop_kept(alloc, modes, name, &whole.block, steps)?;
    drop_each(alloc, modes, whole.goals.as_slice(), steps)?;
    keep_whole(alloc, decls, modes, state, marks, name, number, steps)
}

// drops the duplicable ones of these, which the fold leaves
fn drop_each(
    alloc: Global,
    modes: &Modes,
    goals: &[Atom],
    steps: &mut ViewSteps,
) -> Result<(), Memory>
    ensures { (D : PlainDecls) → AreModes D modes.now → IfOk result (λ _. DropsEach D (plain_atoms goals.now) (plain_steps steps.old) (plain_steps steps.new)) }
{
    for i in 0..goals.len() {
        drop_one(alloc, modes, &goals[i], steps)?;
    }
    Ok(())
}

fn drop_one(alloc: Global, modes: &Modes, goal: &Atom, steps: &mut ViewSteps) -> Result<(), Memory>
    ensures { (D : PlainDecls) → AreModes D modes.now → IfOk result (λ _. DropsKept D (plain_atom goal.now) (plain_steps steps.old) (plain_steps steps.new)) }
{
    if modes.duplicable(goal) {
        steps.push(ViewStep::Drop {
            atom: goal.copy(alloc)?,
        })?;
    }
    Ok(())
}

// keeps a copy of a duplicable whole
fn keep_whole(
    alloc: Global,
    decls: &Decls,
    modes: &Modes,
    state: &mut Indexed,
    marks: &mut Marks,
    name: u32,
    number: u32,
    steps: &mut ViewSteps,
) -> Result<(), Memory>
    requires { AreModes (plain_decls decls.now) modes.now }
    ensures closed { IfOk result (λ _. Closed (plain_decls decls.now) (entries state.old marks.old) name number (entries state.new marks.new)) }
    ensures leads { IfOk result (λ _. Added (plain_decls decls.now) (state.old ++ Has_atom name (Named_type number) ∷ []) (plain_steps steps.old) (plain_steps steps.new) (state.new ++ Has_atom name (Named_type number) ∷ [])) }
{
    let whole = Atom::Has {
        name,
        ty: Ty::Named(number),
    };
    if modes.duplicable(&whole) {
        steps.push(ViewStep::Copy {
            atom: whole.copy(alloc)?,
        })?;
        return add(state, marks, whole);
    }
    Ok(())
}
