//! The rule of an acquire.
ghost use Rattle.std.specs.Prelude.{ℕ, List, IfOk, ◌≡◌, ◌++◌, option_map, option_copied};
ghost use Rattle.mz_tree.specs.Plain.{Atom as PlainAtom};
ghost use Rattle.mz_tree.specs.View.{plain_atom, plain_atoms, plain_command};
ghost use Rattle.mz_perm.specs.Lists.{Which};
ghost use Rattle.mz_modes.specs.Making.{Makes};
ghost use Rattle.mz_modes.specs.Answers.{Answers};
ghost use Rattle.mz_lockrule.specs.Locking.{Acquires, AcquireRule};

use crate::lock::guarded_by;
use mz_decl::Decls;
use mz_modes::{Modes, RuleFault};
use mz_perm::State;
use mz_tree::{Alike, Atom, Command, Memory, Op, Ty};
use std::alloc::Global;

/// Changes the state by the rule of an acquire, with the permission of the lock that the command is said to use. All that
/// is held stays; what the lock guards, that the lock is held, and the unit result come to the end, in this order.
///
/// `NoInstance` comes just where the rule leads from the state to no other: where the command is no acquire, its name
/// occurs in the state, no permission is named, or the named one is no lock's of that name or isn't held. After either
/// fault the state is as it was.
pub fn acquire_rule(
    alloc: Global,
    _decls: &Decls,
    _modes: &Modes,
    state: &mut State,
    command: &Command,
    uses: Option<&Atom>,
) -> Result<(), RuleFault>
    ensures { Answers (λ (_which : Which) (S : List (PlainAtom ℕ)). Makes (AcquireRule state.old) state.old (plain_command command.now) (option_map plain_atom (option_copied uses.entry)) S) state.old state.new result }
{
    if state.occurs(command.to) {
        return Err(RuleFault::NoInstance);
    }
    match (&command.op, uses) {
        (Op::Acquire(lock), Some(atom)) => acquire(alloc, state, command.to, *lock, atom),
        _ => Err(RuleFault::NoInstance),
    }
}

// acquires the lock that has this permission
fn acquire(
    alloc: Global,
    state: &mut State,
    to: u32,
    lock: u32,
    atom: &Atom,
) -> Result<(), RuleFault>
    ensures { Answers (λ (_which : Which) (S : List (PlainAtom ℕ)). Acquires state.old to lock (plain_atom atom.now) S) state.old state.new result }
{
    let guarded = match guarded_by(lock, atom) {
        Some(guarded) => guarded,
        None => return Err(RuleFault::NoInstance),
    };
    if !state.has(atom) {
        return Err(RuleFault::NoInstance);
    }
    let mut next = state.copy(alloc)?;
    add_all(alloc, &mut next, guarded.as_slice())?;
    next.add(Atom::Has {
        name: lock,
        ty: Ty::Locked,
    })?;
    next.add(Atom::Has {
        name: to,
        ty: Ty::Unknown,
    })?;
    *state = next;
    Ok(())
}

// adds these permissions in order; where memory is wanting some are added
fn add_all(alloc: Global, state: &mut State, atoms: &[Atom]) -> Result<(), Memory>
    ensures { IfOk result (λ _. state.new ≡ state.old ++ plain_atoms atoms.now) }
{
    for i in 0..atoms.len() {
        state.add(atoms[i].copy(alloc)?)?;
    }
    Ok(())
}
