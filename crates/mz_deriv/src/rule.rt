//! The rule of each command that goes on in no branches.
ghost use Rattle.std.specs.Prelude.{◌≡◌, false, option_map, option_copied};
ghost use Rattle.mz_tree.specs.Code.{op_branches};
ghost use Rattle.mz_tree.specs.View.{plain_atom, plain_atoms, plain_command, plain_op};
ghost use Rattle.mz_decl.specs.View.{plain_decls};
ghost use Rattle.mz_modes.specs.Modes.{AreModes};
ghost use Rattle.mz_deriv.specs.Scripts.{script_cases_of};
ghost use Rattle.mz_deriv.specs.View.{plain_script_cases};
ghost use Rattle.mz_deriv.specs.Parts.{Follows, GoesStraight};

use crate::{DerivFault, ScriptCases};
use mz_adopt::{give_rule, take_rule};
use mz_decl::Decls;
use mz_flow::plain_rule;
use mz_lockrule::{acquire_rule, newlock_rule, release_rule, spawn_rule};
use mz_modes::{Modes, RuleFault};
use mz_perm::State;
use mz_tree::{Atom, Atoms, Command, Op};
use std::alloc::Global;

/// Makes a command without branches by its rule, with what its item says: it has no case, and joins in nothing.
pub fn go_straight(
    alloc: Global,
    decls: &Decls,
    modes: &Modes,
    state: &mut State,
    command: &Command,
    uses: &Option<Atom>,
    cases: &ScriptCases,
    join: &Atoms,
) -> Result<(), DerivFault>
    requires modes { AreModes (plain_decls decls.now) modes.now }
    requires straight { op_branches (plain_op command.now.op) ≡ false }
    ensures { GoesStraight (plain_decls decls.now) state.old (plain_command command.now) (option_map plain_atom uses.now) (script_cases_of (plain_script_cases cases.now)) (plain_atoms join.now) state.new result }
{
    let refused = DerivFault::BadCommand {
        place: command.place,
    };
    if cases.len() != 0 {
        return Err(refused);
    }
    if join.len() != 0 {
        return Err(refused);
    }
    match follow(alloc, decls, modes, state, command, uses.as_ref()) {
        Ok(()) => Ok(()),
        Err(RuleFault::NoInstance) => Err(refused),
        Err(RuleFault::Memory) => Err(DerivFault::Memory),
    }
}

// changes the state by the rule of the command's kind
fn follow(
    alloc: Global,
    decls: &Decls,
    modes: &Modes,
    state: &mut State,
    command: &Command,
    uses: Option<&Atom>,
) -> Result<(), RuleFault>
    requires { AreModes (plain_decls decls.now) modes.now }
    ensures { Follows (plain_decls decls.now) state.old (plain_command command.now) (option_map plain_atom (option_copied uses.entry)) state.new result }
{
    match &command.op {
        Op::Give { .. } => give_rule(alloc, decls, modes, state, command, uses),
        Op::Take { .. } => take_rule(alloc, decls, modes, state, command, uses),
        Op::NewLock(_) => newlock_rule(alloc, decls, modes, state, command, uses),
        Op::Acquire(_) => acquire_rule(alloc, decls, modes, state, command, uses),
        Op::Release(_) => release_rule(alloc, decls, modes, state, command, uses),
        Op::Spawn { .. } => spawn_rule(alloc, decls, modes, state, command, uses),
        _ => plain_rule(alloc, decls, modes, state, command, uses),
    }
}
