//! The rule of a spawn.
ghost use Rattle.std.specs.Prelude.{◌≡◌, ◌∷◌, [], ℕ, List, IfOk, map, option_map, option_copied};
ghost use Rattle.mz_tree.specs.Plain.{Atom as PlainAtom};
ghost use Rattle.mz_tree.specs.View.{plain_atom, plain_atoms, plain_need, plain_command};
ghost use Rattle.mz_decl.specs.Signatures.{at_args, needed};
ghost use Rattle.mz_decl.specs.View.{plain_decls};
ghost use Rattle.mz_perm.specs.Lists.{Which};
ghost use Rattle.mz_modes.specs.Modes.{AreModes};
ghost use Rattle.mz_modes.specs.Making.{Makes};
ghost use Rattle.mz_modes.specs.Answers.{Answers};
ghost use Rattle.mz_lockrule.specs.Locking.{Spawns, SpawnRule};

use crate::spending::spend;
use mz_decl::Decls;
use mz_modes::{Modes, RuleFault, at_args, callee_sig, needed};
use mz_perm::State;
use mz_tree::{Atom, Atoms, Command, Memory, Needs, Op, Ty};
use sqlite_items::Items;
use std::alloc::Global;

/// Changes the state by the rule of a spawn, with the permission of the function that the command is said to use. The
/// modes are those of the declarations. What the function needs of its argument is used up in order, the first of equal
/// copies where it is affine, and nothing of it comes back; the unit result comes to the end.
///
/// `NoInstance` comes just where the rule leads from the state to no other: where the command is no spawn, its name
/// occurs in the state, no permission is named, the named one isn't held or isn't for a function of one parameter of that
/// name, or what the function needs isn't held. After either fault the state is as it was.
pub fn spawn_rule(
    alloc: Global,
    decls: &Decls,
    modes: &Modes,
    state: &mut State,
    command: &Command,
    uses: Option<&Atom>,
) -> Result<(), RuleFault>
    requires modes { AreModes (plain_decls decls.now) modes.now }
    ensures { Answers (λ (which : Which) (S : List (PlainAtom ℕ)). Makes (SpawnRule which (plain_decls decls.now) state.old) state.old (plain_command command.now) (option_map plain_atom (option_copied uses.entry)) S) state.old state.new result }
{
    if state.occurs(command.to) {
        return Err(RuleFault::NoInstance);
    }
    match (&command.op, uses) {
        (Op::Spawn { callee, arg }, Some(atom)) => {
            spawn(alloc, decls, modes, state, command.to, *callee, *arg, atom)
        }
        _ => Err(RuleFault::NoInstance),
    }
}

// starts the function that has this permission
fn spawn(
    alloc: Global,
    decls: &Decls,
    modes: &Modes,
    state: &mut State,
    to: u32,
    callee: u32,
    arg: u32,
    atom: &Atom,
) -> Result<(), RuleFault>
    requires { AreModes (plain_decls decls.now) modes.now }
    ensures { Answers (λ (which : Which) (S : List (PlainAtom ℕ)). Spawns which (plain_decls decls.now) state.old to callee arg (plain_atom atom.now) S) state.old state.new result }
{
    let sig = match callee_sig(decls, state, callee, 1, atom) {
        Some(sig) => sig,
        None => return Err(RuleFault::NoInstance),
    };
    let wanted = asked(alloc, &sig.needs, arg)?;
    spend(
        alloc,
        modes,
        state,
        &wanted,
        Atom::Has {
            name: to,
            ty: Ty::Unknown,
        },
    )
}

// what the needs ask of this argument
fn asked(alloc: Global, needs: &Needs, arg: u32) -> Result<Atoms, Memory>
    ensures { IfOk result (λ it. plain_atoms it ≡ at_args (arg ∷ []) (needed (map plain_need needs.now))) }
{
    let mut args = Items::new(alloc);
    args.push(arg)?;
    let atoms = needed(alloc, needs)?;
    at_args(alloc, &args, atoms.as_slice())
}
