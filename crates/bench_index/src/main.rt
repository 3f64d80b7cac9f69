//! A program for `bench/run`: one state of 2,000 permissions, of which the half are equations that join all names in one chain, is
//! asked 100 times for the first permission of a name at a data type, which is the last of the state; with the word `names` whether
//! the ends of the chain are one. With the word `1000` or `500` the state has so many. It writes how many questions were answered so.
#![tactic(auto)]

use mz_index::{Indexed, Test};
use mz_perm::State;
use mz_tree::{Atom, Memory, Ty};
use std::alloc::Global;
use std::env;
use std::process::ExitCode;

const QUESTIONS: u32 = 100;

// What is asked.
#[derive(Clone, Copy)]
struct Asked {
    // how many equations there are, and as many other permissions
    half: u32,
    // whether it is asked for names alone
    names: bool,
}

// Each name equals the next, and holds a number; the last holds a data type.
fn chain(alloc: Global, half: u32) -> Result<Indexed, Memory> {
    let mut state = State::new(alloc);
    for name in 0..half {
        state.add(Atom::Same {
            left: name,
            right: name + 1,
        })?;
    }
    for name in 1..half {
        state.add(Atom::Has { name, ty: Ty::Int })?;
    }
    state.add(Atom::Has {
        name: half,
        ty: Ty::Named(0),
    })?;
    Indexed::from_state(alloc, state)
}

// Whether one question is answered as it is to be.
fn is_answered(alloc: Global, state: &Indexed, asked: Asked) -> Result<bool, Memory> {
    if asked.names {
        return state.same_name(alloc, 0, asked.half);
    }
    match state.first(alloc, 0, 0, &Test::OfVariety(0))? {
        Some(place) => Ok(place.checked_add(1) == Some(state.len())),
        None => Ok(false),
    }
}

// How many questions are.
fn answered(alloc: Global, asked: Asked) -> Result<u32, Memory> {
    let state = chain(alloc, asked.half)?;
    let mut count = 0;
    for k in 0..QUESTIONS {
        if is_answered(alloc, &state, asked)? && count <= k {
            count += 1;
        }
    }
    Ok(count)
}

// What the words ask for.
fn wanted(rt: &HostRuntime) -> Asked {
    let mut asked = Asked {
        half: 1000,
        names: false,
    };
    if let Ok(words) = env::args(rt) {
        for word in words {
            match word.as_str() {
                "500" => asked.half = 250,
                "1000" => asked.half = 500,
                "names" => asked.names = true,
                _ => {}
            }
        }
    }
    asked
}

fn main(rt: HostRuntime) -> ExitCode {
    let count = match answered(rt.alloc(), wanted(&rt)) {
        Ok(count) => count,
        Err(Memory) => 0,
    };
    match println!(rt; "{count}") {
        Ok(()) => ExitCode::from(0u8),
        Err(_) => ExitCode::from(1u8),
    }
}
