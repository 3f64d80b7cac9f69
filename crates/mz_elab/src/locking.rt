//! Locks: what a lock guards is added, or asked for.
ghost use Rattle.std.specs.Prelude.{◌≡◌, ◌<◌, ◌++◌, ◌∷◌, [], ℕ, List, IfOk, length};
ghost use Rattle.mz_tree.specs.Plain.{Atom as PlainAtom, Has_atom, Locked_type, Unknown_type};
ghost use Rattle.mz_tree.specs.Code.{Acquire_op, Release_op};
ghost use Rattle.mz_tree.specs.View.{plain_atom, plain_atoms, plain_ty};
ghost use Rattle.mz_decl.specs.View.{plain_decls};
ghost use Rattle.mz_modes.specs.Modes.{AreModes};
ghost use Rattle.mz_lockrule.specs.Locking.{TypeGuards};
ghost use Rattle.mz_elab.specs.Acting.{FindsLock, GuardsSome};
ghost use Rattle.mz_elab.specs.Doing.{ActsOr};
ghost use Rattle.mz_elab.specs.Sought.{IsFirstAt};
ghost use Rattle.mz_elab.specs.Locking.{MeetsOr};

use crate::doing::{add_with_unit, write_do};
use crate::fault::ElabFault;
use crate::finding::{Sought, find};
use crate::goals::meet_goals;
use crate::lending::{lend, with_name};
use mz_decl::Decls;
use mz_deriv::Item;
use mz_index::Indexed;
use mz_modes::Modes;
use mz_tree::{Alike, Atom, Atoms, Memory, Place, Ty};
use sqlite_items::Items;
use std::alloc::Global;

// a lock is taken
pub(crate) fn acquire(
    alloc: Global,
    decls: &Decls,
    modes: &Modes,
    bound: &[u32],
    next: u32,
    state: &mut Indexed,
    to: u32,
    lock: u32,
    place: Place,
    items: &mut Items<Item>,
) -> Result<(), ElabFault>
    requires { AreModes (plain_decls decls.now) modes.now }
    ensures { ActsOr (plain_decls decls.now) state.old next to (Acquire_op lock) place state.new next result }
{
    let sought = Sought::AnyLock;
    let at = find(alloc, decls, modes, state, lock, &sought, place)?;
    let guarded = guards_at(alloc, state, at)?;
    let atom = state.at(at);
    lend(alloc, decls, modes, bound, next, state, atom, lock, items)?;
    write_do(alloc, Some(with_name(alloc, atom, lock)?), items)?;
    add_acquired(alloc, state, to, lock, guarded.as_slice())?;
    Ok(())
}

// a lock is freed
pub(crate) fn release(
    alloc: Global,
    decls: &Decls,
    modes: &Modes,
    bound: &[u32],
    next: u32,
    state: &mut Indexed,
    to: u32,
    lock: u32,
    place: Place,
    items: &mut Items<Item>,
) -> Result<(), ElabFault>
    requires { AreModes (plain_decls decls.now) modes.now }
    ensures { ActsOr (plain_decls decls.now) state.old next to (Release_op lock) place state.new next result }
{
    let sought = Sought::AnyLock;
    let at = find(alloc, decls, modes, state, lock, &sought, place)?;
    let guarded = guards_at(alloc, state, at)?;
    let atom = state.at(at);
    let lent = with_name(alloc, atom, lock)?;
    lend(alloc, decls, modes, bound, next, state, atom, lock, items)?;
    let goals = with_locked(guarded, lock)?;
    meet_then_use(
        alloc,
        decls,
        modes,
        bound,
        next,
        state,
        to,
        goals.as_slice(),
        place,
        lent,
        items,
    )
}

// what the lock at this place guards
fn guards_at(alloc: Global, state: &Indexed, place: usize) -> Result<Atoms, Memory>
    requires { place < length state.now }
    ensures { (l : ℕ) → IsFirstAt state.now l GuardsSome place → IfOk result (λ it. FindsLock state.now l (plain_atoms it)) }
{
    match state.at(place) {
        Atom::Has { name: _, ty } => guards_of(alloc, ty),
        Atom::Same { .. } => Ok(Items::new(alloc)),
    }
}

// what a lock of this type guards
fn guards_of(alloc: Global, ty: &Ty) -> Result<Atoms, Memory>
    ensures { (guarded : List (PlainAtom ℕ)) → TypeGuards (plain_ty ty.now) guarded → IfOk result (λ it. plain_atoms it ≡ guarded) }
{
    match ty {
        Ty::Lock(atoms) => atoms.copy(alloc),
        _ => Ok(Items::new(alloc)),
    }
}

// what is known once the lock is taken
fn add_acquired(
    alloc: Global,
    state: &mut Indexed,
    to: u32,
    lock: u32,
    guarded: &[Atom],
) -> Result<(), Memory>
    ensures { IfOk result (λ _. state.new ≡ state.old ++ plain_atoms guarded.now ++ Has_atom lock Locked_type ∷ Has_atom to Unknown_type ∷ []) }
{
    add_each(alloc, state, guarded)?;
    let held = Atom::Has {
        name: lock,
        ty: Ty::Locked,
    };
    add_with_unit(state, held, to)
}

// adds these permissions, in order
pub(crate) fn add_each(alloc: Global, state: &mut Indexed, atoms: &[Atom]) -> Result<(), Memory>
    ensures { IfOk result (λ _. state.new ≡ state.old ++ plain_atoms atoms.now) }
{
    for i in 0..atoms.len() {
        let atom = atoms[i].copy(alloc)?;
        state.add(atom)?;
    }
    Ok(())
}

// what a lock guards, and that it is held
fn with_locked(guarded: Atoms, lock: u32) -> Result<Atoms, Memory>
    ensures { IfOk result (λ it. plain_atoms it ≡ plain_atoms guarded ++ Has_atom lock Locked_type ∷ []) }
{
    let mut all = guarded;
    all.push(Atom::Has {
        name: lock,
        ty: Ty::Locked,
    })?;
    Ok(all)
}

// a command that meets these goals, uses a permission, and whose value is ()
fn meet_then_use(
    alloc: Global,
    decls: &Decls,
    modes: &Modes,
    bound: &[u32],
    next: u32,
    state: &mut Indexed,
    to: u32,
    goals: &[Atom],
    place: Place,
    uses: Atom,
    items: &mut Items<Item>,
) -> Result<(), ElabFault>
    requires { AreModes (plain_decls decls.now) modes.now }
    ensures { MeetsOr (plain_decls decls.now) state.old (plain_atoms goals.now) (Has_atom to Unknown_type) place state.new result }
{
    meet_goals(alloc, decls, modes, bound, next, state, goals, place, items)?;
    state.add(Atom::Has {
        name: to,
        ty: Ty::Unknown,
    })?;
    write_do(alloc, Some(uses), items)?;
    Ok(())
}
