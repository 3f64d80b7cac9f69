//! From the words of the tables to permissions, commands, states and declarations.
use super::words::{After, CELL, CONSTRUCTORS, DATA_TYPES, Does, FUNCTIONS, Held, SIGNATURES};
use mz_perm::State;
use mz_tree::{
    Atom, Atoms, Body, Case, Cases, Command, Con, Cons, Field, Fields, Fun, Funs, Memory, Names,
    Need, Needs, Op, Place, Program, Sig, Sigs, Ty, Varieties, Variety,
};
use sqlite_items::Items;
use std::alloc::Global;

const PLACE: Place = Place { line: 1, col: 1 };

fn names(alloc: Global, numbers: &[u32]) -> Result<Names, Memory> {
    let mut names = Items::new(alloc);
    for i in 0..numbers.len() {
        names.push(numbers[i])?;
    }
    Ok(names)
}

fn has(name: u32, ty: Ty) -> Atom {
    Atom::Has { name, ty }
}

fn block(alloc: Global, con: u32, fields: &[u32], adopts: Option<u32>) -> Result<Ty, Memory> {
    let fields = names(alloc, fields)?;
    Ok(Ty::Block {
        con,
        fields,
        adopts,
    })
}

// a list of the permission for a cell of this name
fn over_cell(alloc: Global, name: u32) -> Result<Atoms, Memory> {
    let mut guarded = Items::new(alloc);
    guarded.push(has(name, Ty::Named(CELL)))?;
    Ok(guarded)
}

fn atom(alloc: Global, held: Held) -> Result<Atom, Memory> {
    Ok(match held {
        Held::Int(name) => has(name, Ty::Int),
        Held::Unknown(name) => has(name, Ty::Unknown),
        Held::Dynamic(name) => has(name, Ty::Dynamic),
        Held::Locked(name) => has(name, Ty::Locked),
        Held::Named(name, data) => has(name, Ty::Named(data)),
        Held::Function(name, sig) => has(name, Ty::Function(sig)),
        Held::Equal(left, right) => Atom::Same { left, right },
        Held::Block(name, con, fields, adopts) => has(name, block(alloc, con, fields, adopts)?),
        Held::Lock(name, cell) => has(name, Ty::Lock(over_cell(alloc, cell)?)),
    })
}

/// A list of these permissions, in order.
pub(crate) fn atoms(alloc: Global, held: &[Held]) -> Result<Atoms, Memory> {
    let mut atoms = Items::new(alloc);
    for i in 0..held.len() {
        atoms.push(atom(alloc, held[i])?)?;
    }
    Ok(atoms)
}

// the permission that a row names, if it names one
fn used(alloc: Global, held: Option<Held>) -> Result<Option<Atom>, Memory> {
    match held {
        None => Ok(None),
        Some(held) => Ok(Some(atom(alloc, held)?)),
    }
}

// adds these permissions, in order; where memory is wanting some are added
fn add_all(alloc: Global, state: &mut State, held: &[Held]) -> Result<(), Memory> {
    for i in 0..held.len() {
        state.add(atom(alloc, held[i])?)?;
    }
    Ok(())
}

// the state that holds these, and then those
fn state_of(alloc: Global, held: &[Held], more: &[Held]) -> Result<State, Memory> {
    let mut state = State::new(alloc);
    add_all(alloc, &mut state, held)?;
    add_all(alloc, &mut state, more)?;
    Ok(state)
}

// the state after a row that begins with these
fn wanted(alloc: Global, before: &[Held], after: After) -> Result<State, Memory> {
    match after {
        After::Refused => state_of(alloc, before, &[]),
        After::Adds(new) => state_of(alloc, before, new),
        After::Is(all) => state_of(alloc, all, &[]),
    }
}

/// The name of which the permission speaks.
pub(crate) fn subject(held: Held) -> u32 {
    match held {
        Held::Int(name) => name,
        Held::Unknown(name) => name,
        Held::Dynamic(name) => name,
        Held::Locked(name) => name,
        Held::Named(name, _) => name,
        Held::Function(name, _) => name,
        Held::Equal(name, _) => name,
        Held::Block(name, _, _, _) => name,
        Held::Lock(name, _) => name,
    }
}

// a body without commands, whose number is the name that holds its value
fn body(alloc: Global, number: u32) -> Body {
    Body {
        commands: Items::new(alloc),
        result: number,
        place: PLACE,
    }
}

// a case for each constructor; its body's number is that of the case, from 1
fn cases(alloc: Global, cons: &[u32]) -> Result<Cases, Memory> {
    let mut cases = Items::new(alloc);
    let mut number = 0u32;
    for i in 0..cons.len() {
        number = number.saturating_add(1);
        cases.push(Case {
            con: cons[i],
            body: body(alloc, number),
        })?;
    }
    Ok(cases)
}

fn op(alloc: Global, does: Does) -> Result<Op, Memory> {
    Ok(match does {
        Does::Int(number) => Op::Int(number),
        Does::Unit => Op::Unit,
        Does::Fun(fun) => Op::Fun(fun),
        Does::Copy(from) => Op::Copy(from),
        Does::Arith(op, left, right) => Op::Arith { op, left, right },
        Does::New(con, fields) => Op::New {
            con,
            fields: names(alloc, fields)?,
        },
        Does::Read(block, con, field) => Op::Read { block, con, field },
        Does::Write(block, con, field, from) => Op::Write {
            block,
            con,
            field,
            from,
        },
        Does::Retag(block, from, to) => Op::Retag { block, from, to },
        Does::Call(callee, args) => Op::Call {
            callee,
            args: names(alloc, args)?,
        },
        Does::Print(from) => Op::Print(from),
        Does::If(test) => Op::If {
            test,
            yes: body(alloc, 1),
            other: body(alloc, 2),
            giving: Items::new(alloc),
        },
        Does::Match(block, variety, cons) => Op::Match {
            block,
            variety,
            cases: cases(alloc, cons)?,
            giving: Items::new(alloc),
        },
        Does::Give(block, adopter) => Op::Give { block, adopter },
        Does::Take(block, adopter) => Op::Take { block, adopter },
        Does::NewLock(cell) => Op::NewLock(over_cell(alloc, cell)?),
        Does::Acquire(lock) => Op::Acquire(lock),
        Does::Release(lock) => Op::Release(lock),
        Does::Spawn(callee, arg) => Op::Spawn { callee, arg },
    })
}

fn command(alloc: Global, to: u32, does: Does) -> Result<Command, Memory> {
    let op = op(alloc, does)?;
    Ok(Command {
        to,
        op,
        place: PLACE,
    })
}

/// What a row tries: a command, the permission that it is said to use, the state before it, and the state that is wanted.
#[derive(Drop)]
pub(crate) struct Tried {
    pub(crate) command: Command,
    pub(crate) used: Option<Atom>,
    pub(crate) state: State,
    pub(crate) wanted: State,
}

/// What is tried by a row of these words.
pub(crate) fn trial(
    alloc: Global,
    to: u32,
    does: Does,
    uses: Option<Held>,
    before: &[Held],
    after: After,
) -> Result<Tried, Memory> {
    let command = command(alloc, to, does)?;
    let used = used(alloc, uses)?;
    let state = state_of(alloc, before, &[])?;
    let wanted = wanted(alloc, before, after)?;
    Ok(Tried {
        command,
        used,
        state,
        wanted,
    })
}

fn varieties(alloc: Global) -> Result<Varieties, Memory> {
    let mut all = Items::new(alloc);
    for k in 0..DATA_TYPES.len() {
        let (mutable, adopts, cons) = DATA_TYPES[k];
        let cons = names(alloc, cons)?;
        all.push(Variety {
            name: Items::new(alloc),
            place: PLACE,
            mutable,
            adopts,
            cons,
        })?;
    }
    Ok(all)
}

fn fields(alloc: Global, contents: &[Held]) -> Result<Fields, Memory> {
    let mut fields = Items::new(alloc);
    for i in 0..contents.len() {
        let content = atom(alloc, contents[i])?;
        fields.push(Field {
            name: Items::new(alloc),
            content,
        })?;
    }
    Ok(fields)
}

fn cons(alloc: Global) -> Result<Cons, Memory> {
    let mut all = Items::new(alloc);
    for k in 0..CONSTRUCTORS.len() {
        let (variety, contents) = CONSTRUCTORS[k];
        let fields = fields(alloc, contents)?;
        all.push(Con {
            name: Items::new(alloc),
            variety,
            fields,
        })?;
    }
    Ok(all)
}

fn needs(alloc: Global, wanted: &[(Held, bool)]) -> Result<Needs, Memory> {
    let mut needs = Items::new(alloc);
    for i in 0..wanted.len() {
        let (held, consumed) = wanted[i];
        let atom = atom(alloc, held)?;
        needs.push(Need { atom, consumed })?;
    }
    Ok(needs)
}

fn sig(alloc: Global, count: u32, wanted: &[(Held, bool)], gives: &[Held]) -> Result<Sig, Memory> {
    let needs = needs(alloc, wanted)?;
    let gives = atoms(alloc, gives)?;
    Ok(Sig {
        name: Items::new(alloc),
        count,
        needs,
        gives,
    })
}

fn sigs(alloc: Global) -> Result<Sigs, Memory> {
    let mut all = Items::new(alloc);
    for k in 0..SIGNATURES.len() {
        let (count, wanted, gives) = SIGNATURES[k];
        let sig = sig(alloc, count, wanted, gives)?;
        all.push(sig)?;
    }
    Ok(all)
}

fn funs(alloc: Global) -> Result<Funs, Memory> {
    let mut all = Items::new(alloc);
    for k in 0..FUNCTIONS.len() {
        all.push(Fun {
            name: Items::new(alloc),
            sig: FUNCTIONS[k],
            body: body(alloc, 0),
            spelling: Items::new(alloc),
        })?;
    }
    Ok(all)
}

/// All that the tables declare.
pub(crate) fn program(alloc: Global) -> Result<Program, Memory> {
    let varieties = varieties(alloc)?;
    let cons = cons(alloc)?;
    let sigs = sigs(alloc)?;
    let funs = funs(alloc)?;
    Ok(Program {
        varieties,
        cons,
        sigs,
        funs,
        clauses: Items::new(alloc),
    })
}
