//! The state in which a branch of a command begins.
ghost use Rattle.std.specs.Prelude.{option_map, option_copied};
ghost use Rattle.mz_tree.specs.View.{plain_atom, plain_command, plain_op, plain_cases};
ghost use Rattle.mz_decl.specs.View.{plain_decls};
ghost use Rattle.mz_modes.specs.Modes.{AreModes};
ghost use Rattle.mz_modes.specs.Answers.{Gives};
ghost use Rattle.mz_modes.specs.Opening.{Opens};
ghost use Rattle.mz_flow.specs.Branches.{StartsTest, StartsKnown, StartsOpened, StartsMatch, StartsBy};
ghost use Rattle.mz_flow.specs.Starting.{BeginsSome};

use crate::walking::{count_at, walked_body};
use mz_decl::Decls;
use mz_modes::{Modes, RuleFault, open_at};
use mz_perm::State;
use mz_tree::{Atom, Case, Command, Op, Ty};
use std::alloc::Global;

/// The state in which a branch of the command begins, where it uses this permission, if it uses one. `case` is the number
/// of the branch, from 0, among the bodies that a script walks, and `fresh` the first of the names that it makes for the
/// fields of a block that it opens.
///
/// `NoInstance` comes just where no body begins in any state: where the command's name occurs in the state, the command
/// doesn't go on in branches or has no branch of that number, what it needs isn't held, a permission is named that it
/// doesn't use or none where it uses one, a name that is made isn't fresh, or `fresh` isn't 0 where no name is made.
pub fn branch_state(
    alloc: Global,
    decls: &Decls,
    modes: &Modes,
    state: &State,
    command: &Command,
    uses: Option<&Atom>,
    case: u32,
    fresh: u32,
) -> Result<State, RuleFault>
    requires { AreModes (plain_decls decls.now) modes.now }
    ensures { Gives (λ which. BeginsSome which (plain_decls decls.now) state.now (plain_command command.now) (option_map plain_atom (option_copied uses.entry)) case fresh) result }
{
    if state.occurs(command.to) {
        return Err(RuleFault::NoInstance);
    }
    match walked_body(command, uses, case) {
        None => Err(RuleFault::NoInstance),
        Some(_) => start(alloc, decls, modes, state, &command.op, uses, case, fresh),
    }
}

// the state in which branch `case` of the operation starts
fn start(
    alloc: Global,
    decls: &Decls,
    modes: &Modes,
    state: &State,
    op: &Op,
    uses: Option<&Atom>,
    case: u32,
    fresh: u32,
) -> Result<State, RuleFault>
    requires { AreModes (plain_decls decls.now) modes.now }
    ensures { Gives (λ which. StartsBy which (plain_decls decls.now) state.now (plain_op op.now) (option_map plain_atom (option_copied uses.entry)) case fresh) result }
{
    match uses {
        None => match op {
            Op::If { test, .. } => start_test(alloc, state, *test, fresh),
            _ => Err(RuleFault::NoInstance),
        },
        Some(atom) => match op {
            Op::Match {
                block,
                variety,
                cases,
                ..
            } => start_match(
                alloc,
                decls,
                modes,
                state,
                *block,
                *variety,
                atom,
                cases.as_slice(),
                case,
                fresh,
            ),
            _ => Err(RuleFault::NoInstance),
        },
    }
}

// a branch of a test starts with all that is known
fn start_test(alloc: Global, state: &State, test: u32, fresh: u32) -> Result<State, RuleFault>
    ensures { Gives (λ _. StartsTest state.now test fresh) result }
{
    let tested = Atom::Has {
        name: test,
        ty: Ty::Int,
    };
    if fresh != 0 || !state.has(&tested) {
        return Err(RuleFault::NoInstance);
    }
    Ok(state.copy(alloc)?)
}

// a case of a match starts by the type that the permission gives the block
fn start_match(
    alloc: Global,
    decls: &Decls,
    modes: &Modes,
    state: &State,
    block: u32,
    variety: u32,
    atom: &Atom,
    cases: &[Case],
    case: u32,
    fresh: u32,
) -> Result<State, RuleFault>
    requires { AreModes (plain_decls decls.now) modes.now }
    ensures { Gives (λ which. StartsMatch which (plain_decls decls.now) state.now block variety (plain_atom atom.now) (plain_cases cases.now) case fresh) result }
{
    match atom {
        Atom::Same { .. } => Err(RuleFault::NoInstance),
        Atom::Has { name, ty } => {
            if *name != block {
                return Err(RuleFault::NoInstance);
            }
            match ty {
                Ty::Block { con, .. } => {
                    start_known(alloc, decls, state, variety, *con, atom, cases, fresh)
                }
                Ty::Named(other) => {
                    if *other != variety {
                        return Err(RuleFault::NoInstance);
                    }
                    start_opened(
                        alloc, decls, modes, state, block, variety, cases, case, fresh,
                    )
                }
                _ => Err(RuleFault::NoInstance),
            }
        }
    }
}

// the one case of a constructor that is known starts with all that is known
fn start_known(
    alloc: Global,
    decls: &Decls,
    state: &State,
    variety: u32,
    con: u32,
    atom: &Atom,
    cases: &[Case],
    fresh: u32,
) -> Result<State, RuleFault>
    ensures { Gives (λ _. StartsKnown (plain_decls decls.now) state.now variety con (plain_atom atom.now) (plain_cases cases.now) fresh) result }
{
    match decls.con_at(con) {
        None => Err(RuleFault::NoInstance),
        Some(made) => {
            if made.variety != variety || count_at(cases, con) != 1 {
                return Err(RuleFault::NoInstance);
            }
            if fresh != 0 || !state.has(atom) {
                return Err(RuleFault::NoInstance);
            }
            Ok(state.copy(alloc)?)
        }
    }
}

// a case of a data type starts with the block opened at its constructor
fn start_opened(
    alloc: Global,
    decls: &Decls,
    modes: &Modes,
    state: &State,
    block: u32,
    variety: u32,
    cases: &[Case],
    case: u32,
    fresh: u32,
) -> Result<State, RuleFault>
    requires { AreModes (plain_decls decls.now) modes.now }
    ensures { Gives (λ which. StartsOpened which (plain_decls decls.now) state.now block variety variety (plain_cases cases.now) case fresh) result }
{
    match cases.get(case as usize) {
        None => Err(RuleFault::NoInstance),
        Some(one) => opened(alloc, decls, modes, state, block, variety, one.con, fresh),
    }
}

// the state in which the block is opened at this constructor
fn opened(
    alloc: Global,
    decls: &Decls,
    modes: &Modes,
    state: &State,
    block: u32,
    variety: u32,
    con: u32,
    fresh: u32,
) -> Result<State, RuleFault>
    requires { AreModes (plain_decls decls.now) modes.now }
    ensures { Gives (λ which. Opens which (plain_decls decls.now) state.now block variety con fresh) result }
{
    let mut next = state.copy(alloc)?;
    open_at(alloc, decls, modes, &mut next, block, variety, con, fresh)?;
    Ok(next)
}
