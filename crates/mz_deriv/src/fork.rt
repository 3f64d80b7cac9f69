//! Whether a command goes on in branches with the cases that its item has.
ghost use Rattle.std.specs.Prelude.{◌≡◌, ℕ, List, IfOk, option_map};
ghost use Rattle.mz_tree.specs.Plain.{Atom as PlainAtom};
ghost use Rattle.mz_tree.specs.View.{plain_atom, plain_command, plain_body};
ghost use Rattle.mz_perm.specs.Lists.{Any_copy};
ghost use Rattle.mz_flow.specs.Branches.{Begins};
ghost use Rattle.mz_flow.specs.Starting.{BeginsSome};
ghost use Rattle.mz_decl.specs.View.{plain_decls};
ghost use Rattle.mz_modes.specs.Modes.{AreModes};
ghost use Rattle.mz_deriv.specs.Scripts.{script_cases_of};
ghost use Rattle.mz_deriv.specs.View.{plain_script_cases};
ghost use Rattle.mz_deriv.specs.Parts.{Forks};

use crate::{DerivFault, ScriptCases};
use mz_decl::Decls;
use mz_flow::{branch_state, walked, walked_body};
use mz_modes::{Modes, RuleFault};
use mz_perm::State;
use mz_tree::{Atom, Body, Command, Memory};
use std::alloc::Global;

/// Asks whether the command goes on in branches in this state: there are as many cases as bodies that are walked, at least
/// one, and each branch begins. All that is refused at the command's own place is found here, before any branch is walked.
pub fn fork(
    alloc: Global,
    decls: &Decls,
    modes: &Modes,
    state: &State,
    command: &Command,
    uses: &Option<Atom>,
    cases: &ScriptCases,
) -> Result<(), DerivFault>
    requires { AreModes (plain_decls decls.now) modes.now }
    ensures { Forks (plain_decls decls.now) state.now (plain_command command.now) (option_map plain_atom uses.now) (script_cases_of (plain_script_cases cases.now)) result }
{
    let refused = DerivFault::BadCommand {
        place: command.place,
    };
    if cases.len() == 0 {
        return Err(refused);
    }
    if cases.len() != walked(command, uses.as_ref()) {
        return Err(refused);
    }
    let all = cases.as_slice();
    for k in 0..all.len() {
        let case = &all[k];
        let number = branch_number(k)?;
        match branch_state(
            alloc,
            decls,
            modes,
            state,
            command,
            uses.as_ref(),
            number,
            case.fresh,
        ) {
            Ok(_) => {}
            Err(RuleFault::NoInstance) => return Err(refused),
            Err(RuleFault::Memory) => return Err(DerivFault::Memory),
        }
    }
    Ok(())
}

/// The state in which a branch of the command begins, one of those that begin, and the branch's body.
pub fn branch_start<'a>(
    alloc: Global,
    decls: &Decls,
    modes: &Modes,
    state: &State,
    command: &'a Command,
    uses: &Option<Atom>,
    k: usize,
    fresh: u32,
) -> Result<(State, &'a Body), Memory>
    requires modes { AreModes (plain_decls decls.now) modes.now }
    requires begins { (S : List (PlainAtom ℕ)) × BeginsSome Any_copy (plain_decls decls.now) state.now (plain_command command.now) (option_map plain_atom uses.now) k fresh S }
    ensures { IfOk result (λ x. Begins Any_copy (plain_decls decls.now) state.now (plain_command command.now) (option_map plain_atom uses.now) k fresh (plain_body x.1.now) x.0) }
{
    let number = branch_number(k)?;
    match branch_state(
        alloc,
        decls,
        modes,
        state,
        command,
        uses.as_ref(),
        number,
        fresh,
    ) {
        Err(RuleFault::NoInstance) => unreachable!(),
        Err(RuleFault::Memory) => Err(Memory),
        Ok(start) => match walked_body(command, uses.as_ref(), number) {
            None => unreachable!(),
            Some(body) => Ok((start, body)),
        },
    }
}

// the number of a branch; memory is wanting for more of them than there are numbers
fn branch_number(k: usize) -> Result<u32, Memory>
    ensures { IfOk result (λ number. number ≡ k) }
{
    if k > 0xFFFF_FFFF {
        return Err(Memory);
    }
    Ok(k as u32)
}
