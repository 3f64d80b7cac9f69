//! Code that was laid by hand: instructions as a name and numbers.
use mz_tree::{Arith, Names, Place};
use mz_words::{Act, Code, Instr, Start};
use sqlite_items::Items;
use std::alloc::Global;
use std::test::Fail;

/// The numbers of a text, with blanks between them.
pub(crate) fn numbers(alloc: Global, text: &str) -> Result<Vec<u64>, Fail> {
    let mut found = Vec::new(alloc);
    for part in text.split_whitespace() {
        found.push(part.parse()?)?;
    }
    Ok(found)
}

/// One of several numbers, where it is small.
pub(crate) fn small(numbers: &[u64], at: usize) -> Result<u32, Fail> {
    let number = numbers.get(at).ok_or("a number is missing")?;
    Ok(u32::try_from(*number).or(Err("a number is too large"))?)
}

/// The numbers behind the first so many.
fn rest(alloc: Global, numbers: &[u64], skipped: usize) -> Result<Names, Fail> {
    let mut found = Vec::new(alloc);
    for i in 0..numbers.len() {
        if i >= skipped {
            found.push(small(numbers, i)?)?;
        }
    }
    Ok(Items::from_vec(found))
}

fn arith(op: Arith, n: &[u64]) -> Result<Act, Fail> {
    Ok(Act::Arith {
        to: small(n, 0)?,
        op,
        left: small(n, 1)?,
        right: small(n, 2)?,
    })
}

/// An act on blocks.
fn block_act(alloc: Global, name: &str, n: &[u64]) -> Result<Act, Fail> {
    match name {
        "new" => Ok(Act::New {
            to: small(n, 0)?,
            con: small(n, 1)?,
            fields: rest(alloc, n, 2)?,
        }),
        "read" => Ok(Act::Read {
            to: small(n, 0)?,
            block: small(n, 1)?,
            con: small(n, 2)?,
            field: small(n, 3)?,
        }),
        "switch" => Ok(Act::Switch {
            block: small(n, 0)?,
            cons: Items::new(alloc),
            targets: Items::new(alloc),
        }),
        "give" => Ok(Act::Give {
            to: small(n, 0)?,
            block: small(n, 1)?,
            adopter: small(n, 2)?,
        }),
        "take" => Ok(Act::Take {
            to: small(n, 0)?,
            block: small(n, 1)?,
            adopter: small(n, 2)?,
        }),
        _ => Err("there is no such act")?,
    }
}

/// An act by its name and its numbers.
fn act_of(alloc: Global, name: &str, n: &[u64]) -> Result<Act, Fail> {
    match name {
        "const" => Ok(Act::Const {
            to: small(n, 0)?,
            value: *n.get(1).ok_or("there is no number")?,
        }),
        "add" => arith(Arith::Add, n),
        "sub" => arith(Arith::Sub, n),
        "div" => arith(Arith::Div, n),
        "call" => Ok(Act::Call {
            to: small(n, 0)?,
            callee: small(n, 1)?,
            args: rest(alloc, n, 2)?,
        }),
        "return" => Ok(Act::Return { from: small(n, 0)? }),
        "newlock" => Ok(Act::NewLock { to: small(n, 0)? }),
        "acquire" => Ok(Act::Acquire {
            to: small(n, 0)?,
            lock: small(n, 1)?,
        }),
        "spawn" => Ok(Act::Spawn {
            to: small(n, 0)?,
            callee: small(n, 1)?,
            arg: small(n, 2)?,
        }),
        "print" => Ok(Act::Print {
            to: small(n, 0)?,
            from: small(n, 1)?,
        }),
        _ => block_act(alloc, name, n),
    }
}

/// The instruction of a line. Its place is that line.
fn instr_of(alloc: Global, text: &str, line: u32) -> Result<Instr, Fail> {
    let (name, tail) = text
        .trim()
        .split_once(' ')
        .ok_or("an instruction has no numbers")?;
    let numbers = numbers(alloc, tail)?;
    let act = act_of(alloc, name, numbers.as_slice())?;
    Ok(Instr {
        place: Place { line, col: 1 },
        act,
    })
}

/// The code of these functions and instructions, whose `main` is the first function.
pub(crate) fn code_of(alloc: Global, functions: &str, instructions: &str) -> Result<Code, Fail> {
    let mut entries = Vec::new(alloc);
    for function in functions.split('+') {
        let numbers = numbers(alloc, function)?;
        entries.push(Start {
            first: small(numbers.as_slice(), 0)?,
            params: small(numbers.as_slice(), 1)?,
            registers: small(numbers.as_slice(), 2)?,
        })?;
    }
    let mut instrs = Vec::new(alloc);
    let mut line = 0u32;
    for text in instructions.split(';') {
        line = line.saturating_add(1);
        instrs.push(instr_of(alloc, text, line)?)?;
    }
    Ok(Code {
        instrs: Items::from_vec(instrs),
        entries: Items::from_vec(entries),
        main: 0,
    })
}
