//! The rule of a new lock.
ghost use Rattle.std.specs.Prelude.{ℕ, List, option_map, option_copied};
ghost use Rattle.mz_tree.specs.Plain.{Atom as PlainAtom};
ghost use Rattle.mz_tree.specs.View.{plain_atom, plain_atoms, plain_command};
ghost use Rattle.mz_decl.specs.View.{plain_decls};
ghost use Rattle.mz_perm.specs.Lists.{Which};
ghost use Rattle.mz_modes.specs.Modes.{AreModes};
ghost use Rattle.mz_modes.specs.Making.{Makes};
ghost use Rattle.mz_modes.specs.Answers.{Answers};
ghost use Rattle.mz_lockrule.specs.Locking.{Locks, NewLockRule};

use crate::spending::spend;
use mz_decl::Decls;
use mz_modes::{Modes, RuleFault};
use mz_perm::State;
use mz_tree::{Alike, Atom, Atoms, Command, Op, Ty};
use std::alloc::Global;

/// Changes the state by the rule of a new lock. The modes are those of the declarations. What the lock guards is used
/// up, the first of equal copies where it is affine, and the lock's permission comes to the end.
///
/// `NoInstance` comes just where the rule leads from the state to no other: where the command is no new lock, its name
/// occurs in the state, a permission is named, or what the lock guards isn't held. After either fault the state is as it
/// was.
pub fn newlock_rule(
    alloc: Global,
    decls: &Decls,
    modes: &Modes,
    state: &mut State,
    command: &Command,
    uses: Option<&Atom>,
) -> Result<(), RuleFault>
    requires modes { AreModes (plain_decls decls.now) modes.now }
    ensures { Answers (λ (which : Which) (S : List (PlainAtom ℕ)). Makes (NewLockRule which (plain_decls decls.now) state.old) state.old (plain_command command.now) (option_map plain_atom (option_copied uses.entry)) S) state.old state.new result }
{
    if state.occurs(command.to) {
        return Err(RuleFault::NoInstance);
    }
    match (&command.op, uses) {
        (Op::NewLock(guarded), None) => new_lock(alloc, decls, modes, state, command.to, guarded),
        _ => Err(RuleFault::NoInstance),
    }
}

// makes a lock that guards these
fn new_lock(
    alloc: Global,
    decls: &Decls,
    modes: &Modes,
    state: &mut State,
    to: u32,
    guarded: &Atoms,
) -> Result<(), RuleFault>
    requires { AreModes (plain_decls decls.now) modes.now }
    ensures { Answers (λ (which : Which) (S : List (PlainAtom ℕ)). Locks which (plain_decls decls.now) state.old to (plain_atoms guarded.now) S) state.old state.new result }
{
    let lock = Atom::Has {
        name: to,
        ty: Ty::Lock(guarded.copy(alloc)?),
    };
    spend(alloc, modes, state, guarded, lock)
}
