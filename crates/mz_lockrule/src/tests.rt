//! A state after each command of locks and threads, and those that have no instance.
ghost use Rattle.mz_decl.specs.View.{plain_decls};
ghost use Rattle.mz_modes.specs.Modes.{AreModes};

use crate::*;
use mz_decl::{Decls, declarations};
use mz_modes::{Modes, RuleFault, modes};
use mz_perm::State;
use mz_tree::*;
use sqlite_items::Items;
use std::alloc::Global;
use std::test::Fail;
use table::{
    ACQUIRES, After, By, CELL, Does, Held, NEW_LOCKS, RELEASES, Row, SPAWNS, START, TURNS, Turn,
};

mod table;

const PLACE: Place = Place { line: 1, col: 1 };

fn has(name: u32, ty: Ty) -> Atom {
    Atom::Has { name, ty }
}

fn cell(name: u32) -> Atom {
    has(name, Ty::Named(CELL))
}

fn list<T: Drop>(alloc: Global, first: T, second: T) -> Result<Items<T>, Memory> {
    let mut items = Items::new(alloc);
    items.push(first)?;
    items.push(second)?;
    Ok(items)
}

fn atom(alloc: Global, held: Held) -> Result<Atom, Memory> {
    Ok(match held {
        Held::Int(name) => has(name, Ty::Int),
        Held::Unknown(name) => has(name, Ty::Unknown),
        Held::Dynamic(name) => has(name, Ty::Dynamic),
        Held::Locked(name) => has(name, Ty::Locked),
        Held::Cell(name) => cell(name),
        Held::Function(name, sig) => has(name, Ty::Function(sig)),
        Held::Equal(left, right) => Atom::Same { left, right },
        Held::Both(name, block, number) => {
            let guarded = list(alloc, cell(block), has(number, Ty::Int))?;
            has(name, Ty::Lock(guarded))
        }
        Held::Lock(name, block) => {
            let mut guarded = Items::new(alloc);
            guarded.push(cell(block))?;
            has(name, Ty::Lock(guarded))
        }
    })
}

fn op(alloc: Global, does: Does) -> Result<Op, Memory> {
    Ok(match does {
        Does::NewBoth(block, number) => {
            Op::NewLock(list(alloc, cell(block), has(number, Ty::Int))?)
        }
        Does::NewCells(first, second) => Op::NewLock(list(alloc, cell(first), cell(second))?),
        Does::Acquire(lock) => Op::Acquire(lock),
        Does::Release(lock) => Op::Release(lock),
        Does::Spawn(callee, arg) => Op::Spawn { callee, arg },
        Does::Copy(from) => Op::Copy(from),
    })
}

// a mutable data type with one constructor
fn variety(alloc: Global) -> Result<Variety, Memory> {
    let mut cons = Items::new(alloc);
    cons.push(CELL)?;
    Ok(Variety {
        name: Items::new(alloc),
        place: PLACE,
        mutable: true,
        adopts: None,
        cons,
    })
}

fn sig(alloc: Global, count: u32, needs: Needs) -> Sig {
    Sig {
        name: Items::new(alloc),
        count,
        needs,
        gives: Items::new(alloc),
    }
}

// the data type and the signatures of the table
fn program(alloc: Global) -> Result<Program, Memory> {
    let mut varieties = Items::new(alloc);
    varieties.push(variety(alloc)?)?;
    let mut cons = Items::new(alloc);
    cons.push(Con {
        name: Items::new(alloc),
        variety: CELL,
        fields: Items::new(alloc),
    })?;
    let kept = Need {
        atom: cell(0),
        consumed: false,
    };
    let asked = Need {
        atom: has(0, Ty::Dynamic),
        consumed: false,
    };
    let two = sig(alloc, 1, list(alloc, kept, asked)?);
    let pair = sig(alloc, 2, Items::new(alloc));
    let mut consumed = Items::new(alloc);
    consumed.push(Need {
        atom: cell(0),
        consumed: true,
    })?;
    let mut sigs = list(alloc, two, pair)?;
    sigs.push(sig(alloc, 1, consumed))?;
    Ok(Program {
        varieties,
        cons,
        sigs,
        funs: Items::new(alloc),
        clauses: Items::new(alloc),
    })
}

fn start(alloc: Global) -> Result<State, Memory> {
    let mut state = State::new(alloc);
    for one in &START {
        state.add(atom(alloc, *one)?)?;
    }
    Ok(state)
}

// whether the permissions that are held here are those
fn holds(state: &State, atoms: &[Atom]) -> bool {
    let held = state.atoms();
    if held.len() != atoms.len() {
        return false;
    }
    for i in 0..held.len() {
        if !held[i].same(&atoms[i]) {
            return false;
        }
    }
    true
}

// the state that a row wants after its command
fn wanted(alloc: Global, row: &Row) -> Result<State, Memory> {
    let mut state = start(alloc)?;
    let (_, to, _, _, after) = *row;
    match after {
        After::Same => {}
        After::Locked(block, lock) => {
            state.remove(&cell(block));
            state.add(atom(alloc, lock)?)?;
        }
        After::Acquired(block, number, lock) => {
            state.add(cell(block))?;
            state.add(has(number, Ty::Int))?;
            state.add(has(lock, Ty::Locked))?;
            state.add(has(to, Ty::Unknown))?;
        }
        After::Released(block, lock) => {
            state.remove(&cell(block));
            state.remove(&has(lock, Ty::Locked));
            state.add(has(to, Ty::Unknown))?;
        }
        After::Spawned(block) => {
            state.remove(&cell(block));
            state.add(has(to, Ty::Unknown))?;
        }
    }
    Ok(state)
}

// the answer of one of the calls
fn answer(
    alloc: Global,
    decls: &Decls,
    modes: &Modes,
    state: &mut State,
    by: By,
    command: &Command,
    uses: Option<&Atom>,
) -> Result<(), RuleFault>
    requires modes { AreModes (plain_decls decls.now) modes.now }
{
    match by {
        By::NewLock => newlock_rule(alloc, decls, modes, state, command, uses),
        By::Acquire => acquire_rule(alloc, decls, modes, state, command, uses),
        By::Release => release_rule(alloc, decls, modes, state, command, uses),
        By::Spawn => spawn_rule(alloc, decls, modes, state, command, uses),
    }
}

// the same in the program's declarations; none where these aren't lawful
fn answer_in(
    alloc: Global,
    program: &Program,
    state: &mut State,
    by: By,
    command: &Command,
    uses: Option<&Atom>,
) -> Option<Result<(), RuleFault>> {
    match declarations(alloc, program) {
        Ok(Some(decls)) => match modes(alloc, &decls) {
            Ok(modes) => Some(answer(alloc, &decls, &modes, state, by, command, uses)),
            Err(_) => None,
        },
        _ => None,
    }
}

// the answer to what a command does with the permission that it is said to use
fn tried(
    alloc: Global,
    program: &Program,
    state: &mut State,
    by: By,
    to: u32,
    does: Does,
    uses: Option<Held>,
) -> Result<Option<Result<(), RuleFault>>, Memory> {
    let command = Command {
        to,
        op: op(alloc, does)?,
        place: PLACE,
    };
    Ok(match uses {
        None => answer_in(alloc, program, state, by, &command, None),
        Some(held) => {
            let used = atom(alloc, held)?;
            answer_in(alloc, program, state, by, &command, Some(&used))
        }
    })
}

// whether a row's command answers and leaves what is wanted
fn is_so(alloc: Global, program: &Program, by: By, row: &Row) -> Result<bool, Memory> {
    let (_, to, does, uses, after) = *row;
    let mut state = start(alloc)?;
    let answered = tried(alloc, program, &mut state, by, to, does, uses)?;
    let wanted = wanted(alloc, row)?;
    let right = match after {
        After::Same => answered == Some(Err(RuleFault::NoInstance)),
        _ => answered == Some(Ok(())),
    };
    Ok(right && holds(&state, wanted.atoms()))
}

// the first of the rows that isn't so
fn first_wrong(alloc: Global, by: By, rows: &[Row]) -> Result<Option<&'static str>, Memory> {
    let program = program(alloc)?;
    for row in rows {
        if !is_so(alloc, &program, by, row)? {
            return Ok(Some(row.0));
        }
    }
    Ok(None)
}

// whether each turn answers as wanted, one after the other
fn follow(alloc: Global, turns: &[Turn]) -> Result<bool, Memory> {
    let program = program(alloc)?;
    let mut state = start(alloc)?;
    for turn in turns {
        let (to, does, uses, passes) = *turn;
        let by = match does {
            Does::Acquire(_) => By::Acquire,
            _ => By::Release,
        };
        let answered = tried(alloc, &program, &mut state, by, to, does, Some(uses))?;
        if (answered == Some(Ok(()))) != passes {
            return Ok(false);
        }
    }
    Ok(true)
}

#[test]
fn locks_are_made(rt: HostRuntime) -> Result<(), Fail> {
    let alloc = rt.alloc();
    assert_eq!(rt; first_wrong(alloc, By::NewLock, &NEW_LOCKS)?, None);
    Ok(())
}

#[test]
fn locks_are_acquired(rt: HostRuntime) -> Result<(), Fail> {
    let alloc = rt.alloc();
    assert_eq!(rt; first_wrong(alloc, By::Acquire, &ACQUIRES)?, None);
    Ok(())
}

#[test]
fn locks_are_released(rt: HostRuntime) -> Result<(), Fail> {
    let alloc = rt.alloc();
    assert_eq!(rt; first_wrong(alloc, By::Release, &RELEASES)?, None);
    Ok(())
}

#[test]
fn threads_are_started(rt: HostRuntime) -> Result<(), Fail> {
    let alloc = rt.alloc();
    assert_eq!(rt; first_wrong(alloc, By::Spawn, &SPAWNS)?, None);
    Ok(())
}

#[test]
fn what_is_acquired_is_released(rt: HostRuntime) -> Result<(), Fail> {
    let alloc = rt.alloc();
    assert!(rt; follow(alloc, &TURNS)?);
    Ok(())
}
