//! A state after each view step, and the steps that have no instance.

use crate::*;
use mz_decl::declarations;
use mz_modes::modes;
use mz_perm::State;
use mz_tree::*;
use sqlite_items::Items;
use std::alloc::Global;
use std::test::Fail;
use table::{After, Held, PARTS, Row, SIMPLE, START, Step, WHOLE};

mod table;

const PLACE: Place = Place { line: 1, col: 1 };

fn list<T: Drop>(alloc: Global, first: T, second: T) -> Result<Items<T>, Memory> {
    let mut items = Items::new(alloc);
    items.push(first)?;
    items.push(second)?;
    Ok(items)
}

fn one<T: Drop>(alloc: Global, item: T) -> Result<Items<T>, Memory> {
    let mut items = Items::new(alloc);
    items.push(item)?;
    Ok(items)
}

fn has(name: u32, ty: Ty) -> Atom {
    Atom::Has { name, ty }
}

fn equal(left: u32, right: u32) -> Atom {
    Atom::Same { left, right }
}

fn block(con: u32, fields: Names, adopts: Option<u32>) -> Ty {
    Ty::Block {
        con,
        fields,
        adopts,
    }
}

fn atom(alloc: Global, held: Held) -> Result<Atom, Memory> {
    Ok(match held {
        Held::Int(name) => has(name, Ty::Int),
        Held::Unknown(name) => has(name, Ty::Unknown),
        Held::Dynamic(name) => has(name, Ty::Dynamic),
        Held::Locked(name) => has(name, Ty::Locked),
        Held::Named(name, data) => has(name, Ty::Named(data)),
        Held::Equal(left, right) => equal(left, right),
        Held::Block(name, con, first, second, adopts) => {
            has(name, block(con, list(alloc, first, second)?, adopts))
        }
        Held::Empty(name, con) => has(name, block(con, Items::new(alloc), None)),
        Held::Lock(name, x, y, z) => {
            let guarded = list(alloc, has(x, Ty::Int), equal(y, z))?;
            has(name, Ty::Lock(guarded))
        }
        Held::Deep(name, x, first, second, lock, y, z) => {
            let inner = has(lock, Ty::Lock(one(alloc, equal(y, z))?));
            let outer = has(x, block(2, list(alloc, first, second)?, None));
            has(name, Ty::Lock(list(alloc, outer, inner)?))
        }
    })
}

fn step(alloc: Global, step: Step) -> Result<ViewStep, Memory> {
    Ok(match step {
        Step::Drop(held) => ViewStep::Drop {
            atom: atom(alloc, held)?,
        },
        Step::Copy(held) => ViewStep::Copy {
            atom: atom(alloc, held)?,
        },
        Step::Unfold(name, variety, fresh) => ViewStep::Unfold {
            name,
            variety,
            fresh,
        },
        Step::Fold(held) => ViewStep::Fold {
            atom: atom(alloc, held)?,
        },
        Step::Rename(held, to) => ViewStep::Rename {
            atom: atom(alloc, held)?,
            to,
        },
        Step::Equal(left, right) => ViewStep::Equal { left, right },
        Step::Dynamic(name) => ViewStep::Dynamic { name },
        Step::Clause(held, adopts) => ViewStep::Clause {
            atom: atom(alloc, held)?,
            adopts,
        },
        Step::Unknown(name) => ViewStep::Unknown { name },
        Step::Meet(left, right) => ViewStep::Meet {
            left: atom(alloc, left)?,
            right: atom(alloc, right)?,
        },
        Step::Field(held, field, to) => ViewStep::InField {
            atom: atom(alloc, held)?,
            field,
            to,
        },
        Step::Spot(held, spot, to) => ViewStep::InLock {
            atom: atom(alloc, held)?,
            spot,
            to,
        },
    })
}

fn variety(alloc: Global, mutable: bool, adopts: Option<u32>, cons: Names) -> Variety {
    Variety {
        name: Items::new(alloc),
        place: PLACE,
        mutable,
        adopts,
        cons,
    }
}

fn field(alloc: Global, content: Atom) -> Field {
    Field {
        name: Items::new(alloc),
        content,
    }
}

fn con(alloc: Global, variety: u32, fields: Fields) -> Con {
    Con {
        name: Items::new(alloc),
        variety,
        fields,
    }
}

// a constructor with an integer and this
fn pair(alloc: Global, variety: u32, second: Atom) -> Result<Con, Memory> {
    let fields = list(alloc, field(alloc, has(0, Ty::Int)), field(alloc, second))?;
    Ok(con(alloc, variety, fields))
}

fn varieties(alloc: Global) -> Result<Varieties, Memory> {
    let mut all = list(
        alloc,
        variety(alloc, true, Some(1), one(alloc, 0)?),
        variety(alloc, true, None, one(alloc, 1)?),
    )?;
    all.push(variety(alloc, false, None, list(alloc, 2, 3)?))?;
    all.push(variety(alloc, false, None, one(alloc, 4)?))?;
    all.push(variety(alloc, false, None, one(alloc, 5)?))?;
    Ok(all)
}

fn cons(alloc: Global) -> Result<Cons, Memory> {
    let mut all = list(
        alloc,
        pair(alloc, 0, has(1, Ty::Named(1)))?,
        pair(alloc, 1, has(1, Ty::Dynamic))?,
    )?;
    all.push(pair(alloc, 2, has(1, Ty::Unknown))?)?;
    all.push(con(alloc, 2, Items::new(alloc)))?;
    all.push(con(alloc, 3, Items::new(alloc)))?;
    all.push(pair(alloc, 4, equal(1, 0))?)?;
    Ok(all)
}

fn program(alloc: Global) -> Result<Program, Memory> {
    Ok(Program {
        varieties: varieties(alloc)?,
        cons: cons(alloc)?,
        sigs: Items::new(alloc),
        funs: Items::new(alloc),
        clauses: Items::new(alloc),
    })
}

// the state of these permissions
fn state_of(alloc: Global, held: &[Held]) -> Result<State, Memory> {
    let mut state = State::new(alloc);
    for one in held {
        state.add(atom(alloc, *one)?)?;
    }
    Ok(state)
}

// whether the permissions that are held here are those
fn holds(state: &State, atoms: &[Atom]) -> bool {
    let held = state.atoms();
    if held.len() != atoms.len() {
        return false;
    }
    for i in 0..held.len() {
        if !held[i].same(&atoms[i]) {
            return false;
        }
    }
    true
}

fn add(alloc: Global, state: &mut State, held: Held) -> Result<(), Memory> {
    state.add(atom(alloc, held)?)
}

fn take(alloc: Global, state: &mut State, held: Held) -> Result<(), Memory> {
    state.remove(&atom(alloc, held)?);
    Ok(())
}

// the state that a row wants after its step
fn wanted(alloc: Global, after: After) -> Result<State, Memory> {
    let mut state = state_of(alloc, &START)?;
    match after {
        After::Same => {}
        After::Gone(old) => take(alloc, &mut state, old)?,
        After::Added(new) => add(alloc, &mut state, new)?,
        After::Two(first, second) => {
            add(alloc, &mut state, first)?;
            add(alloc, &mut state, second)?;
        }
        After::Three(first, second, third) => {
            add(alloc, &mut state, first)?;
            add(alloc, &mut state, second)?;
            add(alloc, &mut state, third)?;
        }
        After::Changed(old, new) => {
            take(alloc, &mut state, old)?;
            add(alloc, &mut state, new)?;
        }
        After::Opened(old, first, second, third) => {
            take(alloc, &mut state, old)?;
            add(alloc, &mut state, first)?;
            add(alloc, &mut state, second)?;
            add(alloc, &mut state, third)?;
        }
        After::Folded(old, content, new) => {
            take(alloc, &mut state, old)?;
            take(alloc, &mut state, content)?;
            add(alloc, &mut state, new)?;
        }
    }
    Ok(state)
}

// the rule's answer in the program's declarations; none where these aren't lawful
fn answer(
    alloc: Global,
    program: &Program,
    state: &mut State,
    step: &ViewStep,
) -> Option<Result<(), ViewFault>> {
    match declarations(alloc, program) {
        Ok(Some(decls)) => match modes(alloc, &decls) {
            Ok(modes) => Some(apply(alloc, &decls, &modes, state, step)),
            Err(_) => None,
        },
        _ => None,
    }
}

// whether a row's step answers and leaves what is wanted
fn is_so(alloc: Global, program: &Program, row: &Row) -> Result<bool, Memory> {
    let (_, tried, after) = *row;
    let mut state = state_of(alloc, &START)?;
    let answered = answer(alloc, program, &mut state, &step(alloc, tried)?);
    let wanted = wanted(alloc, after)?;
    let right = match after {
        After::Same => answered == Some(Err(ViewFault::NotAnInstance)),
        _ => answered == Some(Ok(())),
    };
    Ok(right && holds(&state, wanted.atoms()))
}

// the first of the rows that isn't so
fn first_wrong(
    alloc: Global,
    program: &Program,
    rows: &[Row],
) -> Result<Option<&'static str>, Memory> {
    for row in rows {
        if !is_so(alloc, program, row)? {
            return Ok(Some(row.0));
        }
    }
    Ok(None)
}

#[test]
fn view_steps_change_states(rt: HostRuntime) -> Result<(), Fail> {
    let alloc = rt.alloc();
    let program = program(alloc)?;
    assert_eq!(rt; first_wrong(alloc, &program, &SIMPLE)?, None);
    assert_eq!(rt; first_wrong(alloc, &program, &WHOLE)?, None);
    assert_eq!(rt; first_wrong(alloc, &program, &PARTS)?, None);
    Ok(())
}
