//! Marks beside the permissions of an `Indexed`.
//!
//! A mark belongs to a place. The list of marks may be shorter than that of the permissions: a place behind its end is
//! unused, so that a goal of a command begins with no marks at all. What is put in at the end is unused, whatever the
//! list has there; what is taken out takes its mark along.
ghost use Rattle.std.specs.Prelude.{◌≡◌, ◌<◌, ◌++◌, ◌∷◌, [], ℕ, List, IfOk, Some, length, slice_get, slice_set, remove};
ghost use Rattle.mz_tree.specs.Plain.{Atom as PlainAtom};
ghost use Rattle.mz_tree.specs.View.{plain_atom};
ghost use Rattle.mz_goal.specs.Goals.{unused};
ghost use Rattle.mz_goal.specs.Marked.{plain_mark, mark_of, entries};

use mz_index::Indexed;
use mz_tree::{Atom, Memory};
use sqlite_items::Items;

// what goals may do with a permission
#[derive(Clone, Copy)]
pub(crate) enum Mark {
    Unused,
    Used,
    Aside,
}

// the marks of the first places
pub(crate) type Marks = Items<Mark>;

// the mark of a place
pub(crate) fn mark_at(marks: &Marks, place: usize) -> Mark
    ensures { plain_mark result ≡ mark_of marks.now place }
{
    match marks.get(place) {
        Some(mark) => *mark,
        None => Mark::Unused,
    }
}

// gives a place another mark
pub(crate) fn set_mark(marks: &mut Marks, place: usize, mark: Mark) -> Result<(), Memory>
    ensures { (R : List (PlainAtom ℕ)) (a : PlainAtom ℕ) → slice_get R place ≡ Some a → IfOk result (λ _. entries R marks.new ≡ slice_set (entries R marks.old) place (record { atom = a; mark = plain_mark mark })) }
{
    while marks.len() <= place {
        marks.push(Mark::Unused)?;
    }
    marks.set(place, mark);
    Ok(())
}

// puts a permission in at the end, unused
pub(crate) fn add(state: &mut Indexed, marks: &mut Marks, atom: Atom) -> Result<(), Memory>
    ensures more { IfOk result (λ _. state.new ≡ state.old ++ plain_atom atom ∷ []) }
    ensures entries { IfOk result (λ _. entries state.new marks.new ≡ entries state.old marks.old ++ unused (plain_atom atom) ∷ []) }
{
    let place = state.len();
    state.add(atom)?;
    if place < marks.len() {
        marks.set(place, Mark::Unused);
    }
    Ok(())
}

// takes out the permission at a place, with its mark
pub(crate) fn take(state: &mut Indexed, marks: &mut Marks, place: usize) -> Atom
    requires { place < length state.old }
    ensures taken { slice_get state.old place ≡ Some (plain_atom result) }
    ensures left { state.new ≡ remove state.old place }
    ensures rest { entries state.new marks.new ≡ remove (entries state.old marks.old) place }
{
    if place < marks.len() {
        marks.remove(place);
    }
    state.take_at(place)
}
