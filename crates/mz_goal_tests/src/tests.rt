//! Each row of the table: whether a goal is met, what it leaves, and that its view steps lead there.
ghost use Rattle.mz_decl.specs.View.{plain_decls};
ghost use Rattle.mz_modes.specs.Modes.{AreModes};

use held::{Held, atom, program, state_of};
use mz_decl::{Decls, declarations};
use mz_goal::{need, need_beside};
use mz_index::Indexed;
use mz_modes::{Modes, modes};
use mz_perm::State;
use mz_tree::{Alike, Atom, Memory, Program};
use mz_view::{ViewSteps, apply};
use sqlite_items::Items;
use std::alloc::Global;
use std::test::Fail;
use table::{BESIDE, FOLDED, PLAIN, Row};

mod held;
mod table;

// the answer of a goal, while what stands at the place, if one is given, is set aside
fn answer(
    alloc: Global,
    decls: &Decls,
    modes: &Modes,
    state: &mut Indexed,
    place: Option<usize>,
    goal: &Atom,
    steps: &mut ViewSteps,
) -> Result<bool, Memory>
    requires { AreModes (plain_decls decls.now) modes.now }
{
    match place {
        None => need(alloc, decls, modes, state, goal, steps),
        Some(at) => {
            if at < state.len() {
                return need_beside(alloc, decls, modes, state, at, goal, steps);
            }
            Ok(false)
        }
    }
}

// whether each of the steps has an instance, one after the other
fn replay(alloc: Global, decls: &Decls, modes: &Modes, state: &mut State, steps: &ViewSteps) -> bool
    requires { AreModes (plain_decls decls.now) modes.now }
{
    let list = steps.as_slice();
    for k in 0..list.len() {
        if apply(alloc, decls, modes, state, &list[k]).is_err() {
            return false;
        }
    }
    true
}

// whether the state holds just these, in this order
fn holds(alloc: Global, state: &Indexed, all: &[Held]) -> Result<bool, Memory> {
    if state.len() != all.len() {
        return Ok(false);
    }
    for k in 0..all.len() {
        if !state.at(k).same(&atom(alloc, all[k])?) {
            return Ok(false);
        }
    }
    Ok(true)
}

// whether the state holds just these and the goal, in any order
fn holds_all(alloc: Global, state: &mut State, all: &[Held], goal: &Atom) -> Result<bool, Memory> {
    for k in 0..all.len() {
        if !state.remove(&atom(alloc, all[k])?) {
            return Ok(false);
        }
    }
    Ok(state.remove(goal) && state.atoms().is_empty())
}

// whether a row is so
fn is_so(alloc: Global, decls: &Decls, modes: &Modes, row: &Row) -> Result<bool, Memory>
    requires { AreModes (plain_decls decls.now) modes.now }
{
    let (_, held, place, wanted, left) = *row;
    let goal = atom(alloc, wanted)?;
    let mut state = Indexed::from_state(alloc, state_of(alloc, held)?)?;
    let mut steps = Items::new(alloc);
    let met = answer(alloc, decls, modes, &mut state, place, &goal, &mut steps)?;
    match left {
        None => Ok(!met && steps.is_empty() && holds(alloc, &state, held)?),
        Some(all) => {
            let mut seen = state_of(alloc, held)?;
            let leads = replay(alloc, decls, modes, &mut seen, &steps);
            Ok(
                met && leads
                    && holds(alloc, &state, all)?
                    && holds_all(alloc, &mut seen, all, &goal)?,
            )
        }
    }
}

// the first of the rows that isn't so
fn wrong_row(
    alloc: Global,
    decls: &Decls,
    modes: &Modes,
    rows: &[Row],
) -> Result<Option<&'static str>, Memory>
    requires { AreModes (plain_decls decls.now) modes.now }
{
    for k in 0..rows.len() {
        if !is_so(alloc, decls, modes, &rows[k])? {
            return Ok(Some(rows[k].0));
        }
    }
    Ok(None)
}

// the same in the program's declarations
fn wrong(alloc: Global, program: &Program, rows: &[Row]) -> Result<Option<&'static str>, Memory> {
    match declarations(alloc, program)? {
        None => Ok(Some("the program declares what the table names")),
        Some(decls) => match modes(alloc, &decls) {
            Ok(modes) => wrong_row(alloc, &decls, &modes, rows),
            Err(_) => Ok(Some("its declarations have modes")),
        },
    }
}

#[test]
fn goals_are_met(rt: HostRuntime) -> Result<(), Fail> {
    let alloc = rt.alloc();
    let program = program(alloc)?;
    assert_eq!(rt; wrong(alloc, &program, PLAIN)?, None);
    assert_eq!(rt; wrong(alloc, &program, FOLDED)?, None);
    assert_eq!(rt; wrong(alloc, &program, BESIDE)?, None);
    Ok(())
}
