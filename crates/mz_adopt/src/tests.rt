//! A state after each give and take, and those that have no instance.
ghost use Rattle.mz_decl.specs.View.{plain_decls};
ghost use Rattle.mz_modes.specs.Modes.{AreModes};

use crate::*;
use mz_decl::{Decls, declarations};
use mz_modes::{Modes, RuleFault, modes};
use mz_perm::State;
use mz_tree::*;
use sqlite_items::Items;
use std::alloc::Global;
use std::test::Fail;
use table::{After, By, Does, GIVES, HEAP, Held, NODE, OWN, POOL, Row, START, TAKES};

mod table;

const PLACE: Place = Place { line: 1, col: 1 };

fn has(name: u32, ty: Ty) -> Atom {
    Atom::Has { name, ty }
}

fn atom(alloc: Global, held: Held) -> Result<Atom, Memory> {
    Ok(match held {
        Held::Int(name) => has(name, Ty::Int),
        Held::Dynamic(name) => has(name, Ty::Dynamic),
        Held::Named(name, data) => has(name, Ty::Named(data)),
        Held::Equal(left, right) => Atom::Same { left, right },
        Held::Block(name, con, field, adopts) => {
            let mut fields = Items::new(alloc);
            fields.push(field)?;
            has(
                name,
                Ty::Block {
                    con,
                    fields,
                    adopts,
                },
            )
        }
    })
}

fn op(does: Does) -> Op {
    match does {
        Does::Give(block, adopter) => Op::Give { block, adopter },
        Does::Take(block, adopter) => Op::Take { block, adopter },
        Does::Copy(from) => Op::Copy(from),
    }
}

// a mutable data type with the constructor of its own number
fn variety(alloc: Global, number: u32, adopts: Option<u32>) -> Result<Variety, Memory> {
    let mut cons = Items::new(alloc);
    cons.push(number)?;
    Ok(Variety {
        name: Items::new(alloc),
        place: PLACE,
        mutable: true,
        adopts,
        cons,
    })
}

// a constructor with one field
fn con(alloc: Global, variety: u32) -> Result<Con, Memory> {
    let mut fields = Items::new(alloc);
    fields.push(Field {
        name: Items::new(alloc),
        content: has(0, Ty::Unknown),
    })?;
    Ok(Con {
        name: Items::new(alloc),
        variety,
        fields,
    })
}

// the data types of the table, each with one constructor
fn program(alloc: Global) -> Result<Program, Memory> {
    let mut varieties = Items::new(alloc);
    varieties.push(variety(alloc, NODE, None)?)?;
    varieties.push(variety(alloc, POOL, Some(NODE))?)?;
    varieties.push(variety(alloc, HEAP, None)?)?;
    varieties.push(variety(alloc, OWN, Some(OWN))?)?;
    let mut cons = Items::new(alloc);
    cons.push(con(alloc, NODE)?)?;
    cons.push(con(alloc, POOL)?)?;
    cons.push(con(alloc, HEAP)?)?;
    cons.push(con(alloc, OWN)?)?;
    Ok(Program {
        varieties,
        cons,
        sigs: Items::new(alloc),
        funs: Items::new(alloc),
        clauses: Items::new(alloc),
    })
}

// the state of these permissions
fn state_of(alloc: Global, held: &[Held]) -> Result<State, Memory> {
    let mut state = State::new(alloc);
    for one in held {
        state.add(atom(alloc, *one)?)?;
    }
    Ok(state)
}

// whether the permissions that are held here are those
fn holds(state: &State, atoms: &[Atom]) -> bool {
    let held = state.atoms();
    if held.len() != atoms.len() {
        return false;
    }
    for i in 0..held.len() {
        if !held[i].same(&atoms[i]) {
            return false;
        }
    }
    true
}

// the state that a row wants after its command
fn wanted(alloc: Global, row: &Row) -> Result<State, Memory> {
    let mut state = state_of(alloc, &START)?;
    let (_, to, _, _, after) = *row;
    match after {
        After::Same => {}
        After::Given(block, data) => {
            state.remove(&atom(alloc, Held::Named(block, data))?);
            state.add(atom(alloc, Held::Dynamic(block))?)?;
            state.add(has(to, Ty::Unknown))?;
        }
        After::Taken(block, data) => {
            state.add(atom(alloc, Held::Named(block, data))?)?;
            state.add(has(to, Ty::Unknown))?;
        }
    }
    Ok(state)
}

// the answer of one of the two calls
fn answer(
    alloc: Global,
    decls: &Decls,
    modes: &Modes,
    state: &mut State,
    by: By,
    command: &Command,
    uses: Option<&Atom>,
) -> Result<(), RuleFault>
    requires modes { AreModes (plain_decls decls.now) modes.now }
{
    match by {
        By::Give => give_rule(alloc, decls, modes, state, command, uses),
        By::Take => take_rule(alloc, decls, modes, state, command, uses),
    }
}

// the same in the program's declarations; none where these aren't lawful
fn answer_in(
    alloc: Global,
    program: &Program,
    state: &mut State,
    by: By,
    command: &Command,
    uses: Option<&Atom>,
) -> Option<Result<(), RuleFault>> {
    match declarations(alloc, program) {
        Ok(Some(decls)) => match modes(alloc, &decls) {
            Ok(modes) => Some(answer(alloc, &decls, &modes, state, by, command, uses)),
            Err(_) => None,
        },
        _ => None,
    }
}

// whether a row's command answers and leaves what is wanted
fn is_so(alloc: Global, program: &Program, by: By, row: &Row) -> Result<bool, Memory> {
    let (_, to, does, uses, after) = *row;
    let mut state = state_of(alloc, &START)?;
    let command = Command {
        to,
        op: op(does),
        place: PLACE,
    };
    let answered = match uses {
        None => answer_in(alloc, program, &mut state, by, &command, None),
        Some(held) => {
            let used = atom(alloc, held)?;
            answer_in(alloc, program, &mut state, by, &command, Some(&used))
        }
    };
    let wanted = wanted(alloc, row)?;
    let right = match after {
        After::Same => answered == Some(Err(RuleFault::NoInstance)),
        _ => answered == Some(Ok(())),
    };
    Ok(right && holds(&state, wanted.atoms()))
}

// the first of the rows that isn't so
fn first_wrong(
    alloc: Global,
    program: &Program,
    by: By,
    rows: &[Row],
) -> Result<Option<&'static str>, Memory> {
    for row in rows {
        if !is_so(alloc, program, by, row)? {
            return Ok(Some(row.0));
        }
    }
    Ok(None)
}

#[test]
fn blocks_are_given(rt: HostRuntime) -> Result<(), Fail> {
    let alloc = rt.alloc();
    let program = program(alloc)?;
    assert_eq!(rt; first_wrong(alloc, &program, By::Give, &GIVES)?, None);
    Ok(())
}

#[test]
fn blocks_are_taken(rt: HostRuntime) -> Result<(), Fail> {
    let alloc = rt.alloc();
    let program = program(alloc)?;
    assert_eq!(rt; first_wrong(alloc, &program, By::Take, &TAKES)?, None);
    Ok(())
}
