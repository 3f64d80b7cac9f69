//! Goals that one permission meets, or none is needed for.
ghost use Rattle.std.specs.Prelude.{◌≡◌, ◌++◌, ◌∷◌, [], ℕ, IfOk, Some, slice_get, true};
ghost use Rattle.mz_tree.specs.Plain.{Atom as PlainAtom, Has_atom, Same_atom, Named_type, Unknown_type, Dynamic_type};
ghost use Rattle.mz_tree.specs.Saying.{Says};
ghost use Rattle.mz_tree.specs.View.{plain_ty};
ghost use Rattle.mz_decl.specs.Declarations.{Decls as PlainDecls};
ghost use Rattle.mz_decl.specs.View.{plain_decls};
ghost use Rattle.mz_modes.specs.Affine.{AffineAtom};
ghost use Rattle.mz_modes.specs.Modes.{AreModes};
ghost use Rattle.mz_perm.specs.Joining.{Joined};
ghost use Rattle.mz_view.specs.Rules.{subject_of};
ghost use Rattle.mz_view.specs.Steps.{plain_steps};
ghost use Rattle.mz_index.specs.Classes.{AreAlike};
ghost use Rattle.mz_index.specs.Finding.{NoneFits};
ghost use Rattle.mz_goal.specs.Goals.{Serves};
ghost use Rattle.mz_goal.specs.Answers.{Did, Likes};
ghost use Rattle.mz_goal.specs.Marked.{entries};
ghost use Rattle.mz_goal.specs.Offering.{OfferAt, Alike_wanted, Exclusive_wanted};
ghost use Rattle.mz_goal.specs.Added.{Added};

use crate::marks::{Marks, add, take};
use crate::naming::{equate, has, rename};
use crate::offers::{Wanted, first_offer};
use crate::retyping::retype;
use mz_decl::Decls;
use mz_index::Indexed;
use mz_modes::Modes;
use mz_tree::{Alike, Atom, Memory, Ty};
use mz_view::{ViewStep, ViewSteps};
use std::alloc::Global;

// an equation
pub(crate) fn equal(
    alloc: Global,
    state: &Indexed,
    marks: &Marks,
    left: u32,
    right: u32,
    steps: &mut ViewSteps,
) -> Result<bool, Memory>
    ensures { (D : PlainDecls) → IfOk result (λ it. Did it D (entries state.now marks.now) (Same_atom left right) (entries state.now marks.now) steps.old steps.new) }
{
    if !state.same_name(alloc, left, right)? {
        return Ok(false);
    }
    equate(alloc, state, left, right, steps)?;
    Ok(true)
}

// a name of which nothing is said, or what is alike
pub(crate) fn alike(
    alloc: Global,
    decls: &Decls,
    modes: &Modes,
    state: &mut Indexed,
    marks: &mut Marks,
    name: u32,
    ty: &Ty,
    steps: &mut ViewSteps,
) -> Result<bool, Memory>
    requires { AreModes (plain_decls decls.now) modes.now }
    ensures { IfOk result (λ it. Likes it (plain_decls decls.now) (entries state.old marks.old) name (plain_ty ty.now) (entries state.new marks.new) steps.old steps.new) }
{
    if is_unknown(ty) {
        steps.push(ViewStep::Unknown { name })?;
        return Ok(true);
    }
    let wanted = Wanted::Alike(ty.copy(alloc)?);
    match first_offer(alloc, decls, modes, state, marks, name, &wanted)? {
        None => Ok(false),
        Some(place) => {
            use_alike(alloc, decls, modes, state, marks, place, name, ty, steps)?;
            Ok(true)
        }
    }
}

fn is_unknown(ty: &Ty) -> bool
    ensures { Says result (plain_ty ty.now ≡ Unknown_type) }
{
    match ty {
        Ty::Unknown => true,
        _ => false,
    }
}

fn is_dynamic(ty: &Ty) -> bool
    ensures { Says result (plain_ty ty.now ≡ Dynamic_type) }
{
    match ty {
        Ty::Dynamic => true,
        _ => false,
    }
}

// meets the goal by the permission at this place, which is alike: an affine one goes
fn use_alike(
    alloc: Global,
    decls: &Decls,
    modes: &Modes,
    state: &mut Indexed,
    marks: &mut Marks,
    place: usize,
    name: u32,
    ty: &Ty,
    steps: &mut ViewSteps,
) -> Result<(), Memory>
    requires modes { AreModes (plain_decls decls.now) modes.now }
    requires offer { OfferAt (plain_decls decls.now) (entries state.old marks.old) name (Alike_wanted (plain_ty ty.now)) place }
    requires known { plain_ty ty.now ≡ Unknown_type → ⊥ }
    ensures { IfOk result (λ _. Likes true (plain_decls decls.now) (entries state.old marks.old) name (plain_ty ty.now) (entries state.new marks.new) steps.old steps.new) }
{
    if modes.duplicable(&has(alloc, name, ty)?) {
        return keep(alloc, decls, modes, state, marks, place, name, ty, steps);
    }
    take_alike(alloc, decls, modes, state, marks, place, name, ty, steps)
}

// a copy of a duplicable one
fn keep(
    alloc: Global,
    decls: &Decls,
    modes: &Modes,
    state: &Indexed,
    marks: &Marks,
    place: usize,
    name: u32,
    ty: &Ty,
    steps: &mut ViewSteps,
) -> Result<(), Memory>
    requires modes { AreModes (plain_decls decls.now) modes.now }
    requires offer { OfferAt (plain_decls decls.now) (entries state.now marks.now) name (Alike_wanted (plain_ty ty.now)) place }
    requires known { plain_ty ty.now ≡ Unknown_type → ⊥ }
    requires duplicable { AffineAtom (plain_decls decls.now) (Has_atom name (plain_ty ty.now)) → ⊥ }
    ensures { IfOk result (λ _. Likes true (plain_decls decls.now) (entries state.now marks.now) name (plain_ty ty.now) (entries state.now marks.now) steps.old steps.new) }
{
    match state.at(place) {
        Atom::Same { .. } => Ok(()),
        Atom::Has {
            name: subject,
            ty: found,
        } => {
            steps.push(ViewStep::Copy {
                atom: has(alloc, *subject, found)?,
            })?;
            bring(alloc, modes, state, *subject, found, name, ty, steps)
        }
    }
}

// an affine one itself
fn take_alike(
    alloc: Global,
    decls: &Decls,
    modes: &Modes,
    state: &mut Indexed,
    marks: &mut Marks,
    place: usize,
    name: u32,
    ty: &Ty,
    steps: &mut ViewSteps,
) -> Result<(), Memory>
    requires modes { AreModes (plain_decls decls.now) modes.now }
    requires offer { OfferAt (plain_decls decls.now) (entries state.old marks.old) name (Alike_wanted (plain_ty ty.now)) place }
    requires affine { AffineAtom (plain_decls decls.now) (Has_atom name (plain_ty ty.now)) }
    ensures { IfOk result (λ _. Likes true (plain_decls decls.now) (entries state.old marks.old) name (plain_ty ty.now) (entries state.new marks.new) steps.old steps.new) }
{
    let atom = take(state, marks, place);
    match &atom {
        Atom::Same { .. } => Ok(()),
        Atom::Has {
            name: subject,
            ty: found,
        } => bring(alloc, modes, state, *subject, found, name, ty, steps),
    }
}

// what stands at the end gets the goal's name and its type
fn bring(
    alloc: Global,
    modes: &Modes,
    state: &Indexed,
    subject: u32,
    found: &Ty,
    name: u32,
    ty: &Ty,
    steps: &mut ViewSteps,
) -> Result<(), Memory>
    requires joined { Joined state.now name subject }
    requires alike { AreAlike state.now (plain_ty found.now) (plain_ty ty.now) }
    ensures { (D : PlainDecls) → AreModes D modes.now → IfOk result (λ _. Added D (state.now ++ Has_atom subject (plain_ty found.now) ∷ []) (plain_steps steps.old) (plain_steps steps.new) (state.now ++ Has_atom name (plain_ty ty.now) ∷ [])) }
{
    rename(alloc, modes, state, subject, found, name, steps)?;
    retype(alloc, modes, state, name, found, ty, steps)
}

// what may be adopted, where nothing is alike; no other goal is met so
pub(crate) fn dynamic(
    alloc: Global,
    decls: &Decls,
    modes: &Modes,
    state: &mut Indexed,
    marks: &mut Marks,
    name: u32,
    ty: &Ty,
    steps: &mut ViewSteps,
) -> Result<bool, Memory>
    requires modes { AreModes (plain_decls decls.now) modes.now }
    requires alone { NoneFits (Serves (entries state.old marks.old) name (plain_ty ty.now)) (entries state.old marks.old) }
    requires known { plain_ty ty.now ≡ Unknown_type → ⊥ }
    requires other { (d : ℕ) → plain_ty ty.now ≡ Named_type d → ⊥ }
    ensures { IfOk result (λ it. Did it (plain_decls decls.now) (entries state.old marks.old) (Has_atom name (plain_ty ty.now)) (entries state.new marks.new) steps.old steps.new) }
{
    if !is_dynamic(ty) {
        return Ok(false);
    }
    match first_offer(alloc, decls, modes, state, marks, name, &Wanted::Exclusive)? {
        None => Ok(false),
        Some(place) => {
            make_dynamic(alloc, decls, modes, state, marks, place, name, steps)?;
            Ok(true)
        }
    }
}

// says so of the goal's name, by the exclusive permission at this place
fn make_dynamic(
    alloc: Global,
    decls: &Decls,
    modes: &Modes,
    state: &mut Indexed,
    marks: &mut Marks,
    place: usize,
    name: u32,
    steps: &mut ViewSteps,
) -> Result<(), Memory>
    requires modes { AreModes (plain_decls decls.now) modes.now }
    requires offer { OfferAt (plain_decls decls.now) (entries state.old marks.old) name Exclusive_wanted place }
    requires alone { NoneFits (Serves (entries state.old marks.old) name Dynamic_type) (entries state.old marks.old) }
    ensures { IfOk result (λ _. Did true (plain_decls decls.now) (entries state.old marks.old) (Has_atom name Dynamic_type) (entries state.new marks.new) steps.old steps.new) }
{
    let subject = subject_at(state, place);
    steps.push(ViewStep::Dynamic { name: subject })?;
    rename(alloc, modes, state, subject, &Ty::Dynamic, name, steps)?;
    steps.push(ViewStep::Copy {
        atom: Atom::Has {
            name,
            ty: Ty::Dynamic,
        },
    })?;
    add(
        state,
        marks,
        Atom::Has {
            name,
            ty: Ty::Dynamic,
        },
    )
}

// the subject of the permission at this place
pub(crate) fn subject_at(state: &Indexed, place: usize) -> u32
    requires { (a : PlainAtom ℕ) × (slice_get state.now place ≡ Some a) }
    ensures { (a : PlainAtom ℕ) → slice_get state.now place ≡ Some a → result ≡ subject_of a }
{
    match state.at(place) {
        Atom::Has { name, .. } => *name,
        Atom::Same { left, .. } => *left,
    }
}
