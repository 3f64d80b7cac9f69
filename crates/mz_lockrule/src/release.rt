//! The rule of a release.
ghost use Rattle.std.specs.Prelude.{◌≡◌, ◌++◌, ◌∷◌, [], ℕ, List, IfOk, option_map, option_copied};
ghost use Rattle.mz_tree.specs.Plain.{Atom as PlainAtom, Has_atom, Locked_type};
ghost use Rattle.mz_tree.specs.View.{plain_atom, plain_atoms, plain_command};
ghost use Rattle.mz_decl.specs.View.{plain_decls};
ghost use Rattle.mz_perm.specs.Lists.{Which};
ghost use Rattle.mz_modes.specs.Modes.{AreModes};
ghost use Rattle.mz_modes.specs.Making.{Makes};
ghost use Rattle.mz_modes.specs.Answers.{Answers};
ghost use Rattle.mz_lockrule.specs.Locking.{Releases, ReleaseRule};

use crate::lock::guarded_by;
use crate::spending::spend;
use mz_decl::Decls;
use mz_modes::{Modes, RuleFault};
use mz_perm::State;
use mz_tree::{Alike, Atom, Atoms, Command, Memory, Op, Ty};
use std::alloc::Global;

/// Changes the state by the rule of a release, with the permission of the lock that the command is said to use. The modes
/// are those of the declarations. What the lock guards is used up, and then that the lock is held, the first of equal
/// copies where it is affine; the unit result comes to the end.
///
/// `NoInstance` comes just where the rule leads from the state to no other: where the command is no release, its name
/// occurs in the state, no permission is named, the named one is no lock's of that name or isn't held, what the lock
/// guards isn't held, or that the lock is held isn't. After either fault the state is as it was.
pub fn release_rule(
    alloc: Global,
    decls: &Decls,
    modes: &Modes,
    state: &mut State,
    command: &Command,
    uses: Option<&Atom>,
) -> Result<(), RuleFault>
    requires modes { AreModes (plain_decls decls.now) modes.now }
    ensures { Answers (λ (which : Which) (S : List (PlainAtom ℕ)). Makes (ReleaseRule which (plain_decls decls.now) state.old) state.old (plain_command command.now) (option_map plain_atom (option_copied uses.entry)) S) state.old state.new result }
{
    if state.occurs(command.to) {
        return Err(RuleFault::NoInstance);
    }
    match (&command.op, uses) {
        (Op::Release(lock), Some(atom)) => {
            release(alloc, decls, modes, state, command.to, *lock, atom)
        }
        _ => Err(RuleFault::NoInstance),
    }
}

// releases the lock that has this permission
fn release(
    alloc: Global,
    decls: &Decls,
    modes: &Modes,
    state: &mut State,
    to: u32,
    lock: u32,
    atom: &Atom,
) -> Result<(), RuleFault>
    requires { AreModes (plain_decls decls.now) modes.now }
    ensures { Answers (λ (which : Which) (S : List (PlainAtom ℕ)). Releases which (plain_decls decls.now) state.old to lock (plain_atom atom.now) S) state.old state.new result }
{
    let guarded = match guarded_by(lock, atom) {
        Some(guarded) => guarded,
        None => return Err(RuleFault::NoInstance),
    };
    if !state.has(atom) {
        return Err(RuleFault::NoInstance);
    }
    let wanted = owed(alloc, guarded, lock)?;
    spend(
        alloc,
        modes,
        state,
        &wanted,
        Atom::Has {
            name: to,
            ty: Ty::Unknown,
        },
    )
}

// what is guarded, and that the lock is held
fn owed(alloc: Global, guarded: &Atoms, lock: u32) -> Result<Atoms, Memory>
    ensures { IfOk result (λ it. plain_atoms it ≡ plain_atoms guarded.now ++ Has_atom lock Locked_type ∷ []) }
{
    let mut owed = guarded.copy(alloc)?;
    owed.push(Atom::Has {
        name: lock,
        ty: Ty::Locked,
    })?;
    Ok(owed)
}
