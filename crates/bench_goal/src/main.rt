//! A program for `bench/run`: one state of 2,000 permissions, of which the half are equations that join all names in one chain, meets
//! ten goals, each that the first name of the chain holds the data type that the last one holds. With the word `1000` or `500` the
//! state has so many. It writes how many goals were met.
#![tactic(auto)]

use mz_decl::declarations;
use mz_goal::need;
use mz_index::Indexed;
use mz_modes::modes;
use mz_perm::State;
use mz_tree::{Atom, Con, Field, Memory, Place, Program, Ty, Variety};
use sqlite_items::Items;
use std::alloc::Global;
use std::env;
use std::process::ExitCode;

const GOALS: u32 = 10;

// A program of one immutable data type, whose constructor holds a number.
fn one_type(alloc: Global) -> Result<Program, Memory> {
    let mut numbers = Items::new(alloc);
    numbers.push(0)?;
    let mut varieties = Items::new(alloc);
    varieties.push(Variety {
        name: Items::new(alloc),
        place: Place { line: 1, col: 1 },
        mutable: false,
        adopts: None,
        cons: numbers,
    })?;
    let mut fields = Items::new(alloc);
    fields.push(Field {
        name: Items::new(alloc),
        content: Atom::Has {
            name: 0,
            ty: Ty::Int,
        },
    })?;
    let mut cons = Items::new(alloc);
    cons.push(Con {
        name: Items::new(alloc),
        variety: 0,
        fields,
    })?;
    Ok(Program {
        varieties,
        cons,
        sigs: Items::new(alloc),
        funs: Items::new(alloc),
        clauses: Items::new(alloc),
    })
}

// Each name equals the next, and holds a number; the last holds the data type.
fn chain(alloc: Global, half: u32) -> Result<Indexed, Memory> {
    let mut state = State::new(alloc);
    for name in 0..half {
        state.add(Atom::Same {
            left: name,
            right: name + 1,
        })?;
    }
    for name in 1..half {
        state.add(Atom::Has { name, ty: Ty::Int })?;
    }
    state.add(Atom::Has {
        name: half,
        ty: Ty::Named(0),
    })?;
    Indexed::from_state(alloc, state)
}

// How many goals are met.
fn met(alloc: Global, half: u32) -> Result<u32, Memory> {
    let program = one_type(alloc)?;
    let Some(decls) = declarations(alloc, &program)? else {
        return Ok(0);
    };
    let Ok(found) = modes(alloc, &decls) else {
        return Ok(0);
    };
    let mut state = chain(alloc, half)?;
    let goal = Atom::Has {
        name: 0,
        ty: Ty::Named(0),
    };
    let mut count = 0;
    for k in 0..GOALS {
        let mut steps = Items::new(alloc);
        if need(alloc, &decls, &found, &mut state, &goal, &mut steps)? && count <= k {
            count += 1;
        }
    }
    Ok(count)
}

// Half of the permissions that the words ask for.
fn wanted(rt: &HostRuntime) -> u32 {
    let mut half = 1000;
    if let Ok(words) = env::args(rt) {
        for word in words {
            match word.as_str() {
                "500" => half = 250,
                "1000" => half = 500,
                _ => {}
            }
        }
    }
    half
}

fn main(rt: HostRuntime) -> ExitCode {
    let count = match met(rt.alloc(), wanted(&rt)) {
        Ok(count) => count,
        Err(Memory) => 0,
    };
    match println!(rt; "{count}") {
        Ok(()) => ExitCode::from(0u8),
        Err(_) => ExitCode::from(1u8),
    }
}
