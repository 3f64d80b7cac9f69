//! A program for `bench/run`: 1,000 data types in a chain of 999 fields, each affine because of the next, are marked; with
//! the word `half` it is 500 of them. It writes whether the first is affine.
#![tactic(auto)]

use mz_decl::declarations;
use mz_modes::modes;
use mz_tree::{Atom, Con, Field, Memory, Place, Program, Ty, Variety};
use sqlite_items::Items;
use std::alloc::Global;
use std::env;
use std::process::ExitCode;

// The data type of this number, with the constructor of its own number.
fn variety(alloc: Global, number: u32, mutable: bool) -> Result<Variety, Memory> {
    let mut cons = Items::new(alloc);
    cons.push(number)?;
    Ok(Variety {
        name: Items::new(alloc),
        place: Place {
            line: number,
            col: 1,
        },
        mutable,
        adopts: None,
        cons,
    })
}

// Its constructor, with one field of this type.
fn con(alloc: Global, number: u32, ty: Ty) -> Result<Con, Memory> {
    let mut fields = Items::new(alloc);
    fields.push(Field {
        name: Items::new(alloc),
        content: Atom::Has { name: 0, ty },
    })?;
    Ok(Con {
        name: Items::new(alloc),
        variety: number,
        fields,
    })
}

// Each data type holds the next, and the last is mutable and holds a number.
fn chain(alloc: Global, length: u32) -> Result<Program, Memory> {
    let mut varieties = Items::new(alloc);
    let mut cons = Items::new(alloc);
    for number in 0..length {
        let next = number + 1;
        let last = next == length;
        let ty = if last { Ty::Int } else { Ty::Named(next) };
        varieties.push(variety(alloc, number, last)?)?;
        cons.push(con(alloc, number, ty)?)?;
    }
    Ok(Program {
        varieties,
        cons,
        sigs: Items::new(alloc),
        funs: Items::new(alloc),
        clauses: Items::new(alloc),
    })
}

// Whether the first data type of the chain is affine; None where it isn't well formed.
fn first_is_affine(alloc: Global, length: u32) -> Result<Option<bool>, Memory> {
    let program = chain(alloc, length)?;
    let Some(decls) = declarations(alloc, &program)? else {
        return Ok(None);
    };
    match modes(alloc, &decls) {
        Ok(found) => Ok(Some(!found.duplicable(&Atom::Has {
            name: 0,
            ty: Ty::Named(0),
        }))),
        Err(_) => Ok(None),
    }
}

// The length that the words ask for.
fn length(rt: &HostRuntime) -> u32 {
    match env::args(rt) {
        Ok(mut words) => {
            if words.any(|word| word.as_str() == "half") {
                500
            } else {
                1000
            }
        }
        Err(_) => 1000,
    }
}

fn main(rt: HostRuntime) -> ExitCode {
    let text = match first_is_affine(rt.alloc(), length(&rt)) {
        Ok(Some(true)) => "affine",
        Ok(Some(false)) => "duplicable",
        Ok(None) => "not well formed",
        Err(Memory) => "out of memory",
    };
    match println!(rt; "{text}") {
        Ok(()) => ExitCode::from(0u8),
        Err(_) => ExitCode::from(1u8),
    }
}
