//! The way of a script through a body, and through the bodies of its commands.
ghost use Rattle.std.specs.Prelude.{◌≡◌, ◌≤◌, ◌++◌, ◌∷◌, [], List, length, map, drop, option_map, IfOk};
ghost use Rattle.mz_tree.specs.View.{plain_atom, plain_atoms, plain_command, plain_commands, plain_body};
ghost use Rattle.mz_decl.specs.View.{plain_decls};
ghost use Rattle.mz_modes.specs.Modes.{AreModes};
ghost use Rattle.mz_view.specs.Steps.{plain_step};
ghost use Rattle.mz_deriv.specs.Scripts.{script_cases_of};
ghost use Rattle.mz_deriv.specs.View.{plain_item, plain_script_cases};
ghost use Rattle.mz_deriv.specs.Rules.{Branch, Branches};
ghost use Rattle.mz_deriv.specs.Refused.{next_place};
ghost use Rattle.mz_deriv.specs.Parts.{Sees, Makes, Leads, BranchLeads, BranchesLead};

use crate::fork::{branch_start, fork};
use crate::join::{state_of, with_value};
use crate::outer::names_outer;
use crate::rule::go_straight;
use crate::{DerivFault, Item, ScriptCase, ScriptCases};
use mz_decl::Decls;
use mz_flow::end_rule;
use mz_modes::{Modes, RuleFault};
use mz_perm::State;
use mz_tree::{Alike, Atom, Atoms, Body, Command, Memory, Names, Place};
use mz_view::{ViewFault, ViewStep, apply};
use std::alloc::Global;

/// Goes along the items and the commands of the body at once, from this state to that at the body's end. `bound` are the
/// names that are bound where the body begins.
#[cycle(walks)]
pub fn walk(
    alloc: Global,
    items: &[Item],
    decls: &Decls,
    modes: &Modes,
    bound: &Names,
    state: &mut State,
    body: &Body,
) -> Result<(), DerivFault>
    requires modes { AreModes (plain_decls decls.now) modes.now }
    ensures { Leads (plain_decls decls.now) bound.now state.old (plain_body body.now) (map plain_item items.now) state.new result }
{
    let commands = body.commands.as_slice();
    let mut names = bound.copy(alloc)?;
    let mut done = 0;
    let mut made: u64 = 0;
    for i in 0..items.len() {
        match &items[i] {
            Item::Step(step) => {
                let place = next_place(commands, done, body.place);
                see(alloc, decls, modes, state, step, place, made + 1)?;
                made += 1;
            }
            Item::Do { uses, cases, join } => {
                if done == commands.len() {
                    return Err(DerivFault::BadCommand { place: body.place });
                }
                let command = &commands[done];
                make(
                    alloc, cases, decls, modes, &names, state, command, uses, join,
                )?;
                bind(&mut names, command.to)?;
                done += 1;
                made = 0;
            }
        }
    }
    if done < commands.len() {
        return Err(DerivFault::BadCommand {
            place: commands[done].place,
        });
    }
    Ok(())
}

// makes a command with what its item says: by its rule, or through its branches, which join there
#[cycle(walks)]
fn make(
    alloc: Global,
    cases: &ScriptCases,
    decls: &Decls,
    modes: &Modes,
    bound: &Names,
    state: &mut State,
    command: &Command,
    uses: &Option<Atom>,
    join: &Atoms,
) -> Result<(), DerivFault>
    requires modes { AreModes (plain_decls decls.now) modes.now }
    ensures { Makes (plain_decls decls.now) bound.now state.old (plain_command command.now) (option_map plain_atom uses.now) (script_cases_of (plain_script_cases cases.now)) (plain_atoms join.now) state.new result }
{
    if !command.op.branches() {
        return go_straight(alloc, decls, modes, state, command, uses, cases, join);
    }
    fork(alloc, decls, modes, state, command, uses, cases)?;
    if !names_outer(join.as_slice(), bound, state, command.to) {
        return Err(DerivFault::BadJoin {
            place: command.place,
        });
    }
    walk_branches(
        alloc,
        cases.as_slice(),
        decls,
        modes,
        bound,
        state,
        command,
        uses,
        join,
    )?;
    *state = state_of(alloc, join.as_slice())?;
    Ok(())
}

// goes through each branch, all of which begin in this state
#[cycle(walks)]
fn walk_branches(
    alloc: Global,
    cases: &[ScriptCase],
    decls: &Decls,
    modes: &Modes,
    bound: &Names,
    state: &State,
    command: &Command,
    uses: &Option<Atom>,
    join: &Atoms,
) -> Result<(), DerivFault>
    requires modes { AreModes (plain_decls decls.now) modes.now }
    requires forks { (branches : List Branch) × Branches (plain_decls decls.now) state.now (plain_command command.now) (option_map plain_atom uses.now) (script_cases_of (plain_script_cases cases.now)) branches }
    ensures { BranchesLead (plain_decls decls.now) bound.now state.now (plain_command command.now) (option_map plain_atom uses.now) (script_cases_of (plain_script_cases cases.now)) (plain_atoms join.now) result }
{
    for k in 0..cases.len() {
        let case = &cases[k];
        let (mut start, body) = branch_start(
            alloc, decls, modes, state, command, uses, k, case.fresh,
        )?;
        let items = case.body.items.as_slice();
        walk_branch(
            alloc, items, decls, modes, bound, &mut start, command, body, join,
        )?;
    }
    Ok(())
}

// goes through one branch, from where it begins, and uses up the join at its end
#[cycle(walks)]
fn walk_branch(
    alloc: Global,
    items: &[Item],
    decls: &Decls,
    modes: &Modes,
    bound: &Names,
    state: &mut State,
    command: &Command,
    body: &Body,
    join: &Atoms,
) -> Result<(), DerivFault>
    requires modes { AreModes (plain_decls decls.now) modes.now }
    ensures { BranchLeads (plain_decls decls.now) bound.now state.old (plain_command command.now) (plain_body body.now) (map plain_item items.now) (plain_atoms join.now) result }
{
    walk(alloc, items, decls, modes, bound, state, body)?;
    let wanted = with_value(alloc, join.as_slice(), command.to, body.result)?;
    match end_rule(alloc, modes, state, &wanted) {
        Ok(()) => Ok(()),
        Err(RuleFault::NoInstance) => Err(DerivFault::BadJoin { place: body.place }),
        Err(RuleFault::Memory) => Err(DerivFault::Memory),
    }
}

// one more name is bound
fn bind(names: &mut Names, name: u32) -> Result<(), Memory>
    ensures { IfOk result (λ _. names.new ≡ names.old ++ name ∷ []) }
{
    names.push(name)?;
    Ok(())
}

// where the next command stands, or the closing brace where all are done
fn next_place(commands: &[Command], done: usize, brace: Place) -> Place
    requires { done ≤ length commands.now }
    ensures { result ≡ next_place (plain_commands (drop done commands.now)) brace }
{
    match commands.get(done) {
        Some(command) => command.place,
        None => brace,
    }
}

// makes a view step, which has this number and this place
fn see(
    alloc: Global,
    decls: &Decls,
    modes: &Modes,
    state: &mut State,
    step: &ViewStep,
    place: Place,
    number: u64,
) -> Result<(), DerivFault>
    requires { AreModes (plain_decls decls.now) modes.now }
    ensures { Sees (plain_decls decls.now) state.old (plain_step step.now) place number state.new result }
{
    match apply(alloc, decls, modes, state, step) {
        Ok(()) => Ok(()),
        Err(ViewFault::NotAnInstance) => Err(DerivFault::BadStep {
            place,
            step: number,
        }),
        Err(ViewFault::Memory) => Err(DerivFault::Memory),
    }
}
