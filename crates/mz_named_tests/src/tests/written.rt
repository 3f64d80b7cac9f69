//! How the programs of the tables are written, and what they are as programs.
//!
//! A program is a list of parts with `/` between them. `fun 2: ..` is a function of two parameters, and its commands bind the names
//! from 2 on; the functions are numbered in order, and `main` is the last one. `body 10: ..` is a body that another part's command goes
//! on in, and its commands bind the names from 10 on; a part stands behind those that it goes on in, which it names by their places
//! among all parts. A part's value is that of its last command. Commands have `,` between them, and each is a word and its numbers:
//! `new 3 0 1` is a block of constructor 3 with the fields 0 and 1, `match 0 5 1 6 2` has the part 1 for constructor 5 and 2 for 6.
//! The tables are texts, since a text is proved safe at once and a list of lists of commands in minutes.
use mz_tree::*;
use sqlite_items::Items;
use std::alloc::Global;
use std::test::Fail;

const PLACE: Place = Place { line: 1, col: 1 };

/// The number that is this word, one too large for any name where there is none.
fn number(words: &[&str], at: usize) -> u32 {
    match words.get(at) {
        Some(word) => word.parse().unwrap_or(u32::MAX),
        None => u32::MAX,
    }
}

/// The numbers that are the words from this one on.
fn numbers(alloc: Global, words: &[&str], from: usize) -> Result<Names, Memory> {
    let mut found = Items::new(alloc);
    for at in from..words.len() {
        found.push(number(words, at))?;
    }
    Ok(found)
}

fn operator(word: &str) -> Option<Arith> {
    match word {
        "add" => Some(Arith::Add),
        "sub" => Some(Arith::Sub),
        "mul" => Some(Arith::Mul),
        "div" => Some(Arith::Div),
        "rem" => Some(Arith::Rem),
        "eq" => Some(Arith::Eq),
        "ne" => Some(Arith::Ne),
        "lt" => Some(Arith::Lt),
        "le" => Some(Arith::Le),
        "gt" => Some(Arith::Gt),
        "ge" => Some(Arith::Ge),
        _ => None,
    }
}

// an operation on these three numbers
fn plain(word: &str, a: u32, b: u32, c: u32) -> Option<Op> {
    match word {
        "unit" => Some(Op::Unit),
        "fun" => Some(Op::Fun(a)),
        "copy" => Some(Op::Copy(a)),
        "read" => Some(Op::Read {
            block: a,
            con: b,
            field: c,
        }),
        "retag" => Some(Op::Retag {
            block: a,
            from: b,
            to: c,
        }),
        "give" => Some(Op::Give {
            block: a,
            adopter: b,
        }),
        "take" => Some(Op::Take {
            block: a,
            adopter: b,
        }),
        "acquire" => Some(Op::Acquire(a)),
        "release" => Some(Op::Release(a)),
        "spawn" => Some(Op::Spawn { callee: a, arg: b }),
        "print" => Some(Op::Print(a)),
        _ => operator(word).map(|op| Op::Arith {
            op,
            left: a,
            right: b,
        }),
    }
}

// an operation on as many numbers as there are
fn listing(alloc: Global, word: &str, words: &[&str]) -> Result<Op, Fail> {
    match word {
        "int" => {
            let digits = words.get(1).ok_or("a number is missing")?;
            Ok(Op::Int(digits.parse::<u64>()?))
        }
        "new" => Ok(Op::New {
            con: number(words, 1),
            fields: numbers(alloc, words, 2)?,
        }),
        "write" => Ok(Op::Write {
            block: number(words, 1),
            con: number(words, 2),
            field: number(words, 3),
            from: number(words, 4),
        }),
        "call" => Ok(Op::Call {
            callee: number(words, 1),
            args: numbers(alloc, words, 2)?,
        }),
        "newlock" => Ok(Op::NewLock(Items::new(alloc))),
        _ => Err("there is no such command")?,
    }
}

fn body_at(alloc: Global, bodies: &[Body], place: u32) -> Result<Body, Fail> {
    let body = bodies.get(place as usize).ok_or("a part is missing")?;
    Ok(body.copy(alloc)?)
}

fn cases_of(alloc: Global, bodies: &[Body], words: &[&str]) -> Result<Cases, Fail> {
    let mut cases = Items::new(alloc);
    for at in 2..words.len() {
        if at % 2 == 1 {
            let body = body_at(alloc, bodies, number(words, at))?;
            cases.push(Case {
                con: number(words, at - 1),
                body,
            })?;
        }
    }
    Ok(cases)
}

fn op(alloc: Global, bodies: &[Body], words: &[&str]) -> Result<Op, Fail> {
    let word = *words.get(0).ok_or("a command is missing")?;
    let giving = Items::new(alloc);
    match word {
        "if" => Ok(Op::If {
            test: number(words, 1),
            yes: body_at(alloc, bodies, number(words, 2))?,
            other: body_at(alloc, bodies, number(words, 3))?,
            giving,
        }),
        "match" => Ok(Op::Match {
            block: number(words, 1),
            variety: 0,
            cases: cases_of(alloc, bodies, words)?,
            giving,
        }),
        _ => match plain(word, number(words, 1), number(words, 2), number(words, 3)) {
            Some(op) => Ok(op),
            None => listing(alloc, word, words),
        },
    }
}

// a body whose commands bind the names from `first` on
fn body(alloc: Global, bodies: &[Body], first: u32, text: &str) -> Result<Body, Fail> {
    let mut commands = Items::new(alloc);
    let mut to = first;
    let mut result = first;
    for command in text.split(',') {
        let words: Vec<&str> = command.split_whitespace().collect(alloc)?;
        if words.len() > 0 {
            let op = op(alloc, bodies, &words)?;
            commands.push(Command {
                to,
                op,
                place: PLACE,
            })?;
            result = to;
            to = to.saturating_add(1);
        }
    }
    Ok(Body {
        commands,
        result,
        place: PLACE,
    })
}

// one function more, with a signature of its own
fn add_function(alloc: Global, program: &mut Program, count: u32, body: Body) -> Result<(), Fail> {
    let sig = u32::try_from(program.sigs.len()).unwrap_or(u32::MAX);
    program.sigs.push(Sig {
        name: Items::new(alloc),
        count,
        needs: Items::new(alloc),
        gives: Items::new(alloc),
    })?;
    program.funs.push(Fun {
        name: Items::new(alloc),
        sig,
        body,
        spelling: Items::new(alloc),
    })?;
    Ok(())
}

// one part more: a body, which is a function's where its first word says so
fn add_part(
    alloc: Global,
    program: &mut Program,
    bodies: &mut Items<Body>,
    text: &str,
) -> Result<(), Fail> {
    let (head, commands) = text.split_once(':').ok_or("a part has no colon")?;
    let words: Vec<&str> = head.split_whitespace().collect(alloc)?;
    let first = number(&words, 1);
    let body = body(alloc, bodies.as_slice(), first, commands)?;
    if words.get(0).copied() == Some("fun") {
        add_function(alloc, program, first, body.copy(alloc)?)?;
    }
    bodies.push(body)?;
    Ok(())
}

/// The program of this text. Its data types and constructors stay out: no step asks for them.
pub(crate) fn program(alloc: Global, text: &str) -> Result<Program, Fail> {
    let mut bodies = Items::new(alloc);
    let mut program = Program {
        varieties: Items::new(alloc),
        cons: Items::new(alloc),
        sigs: Items::new(alloc),
        funs: Items::new(alloc),
        clauses: Items::new(alloc),
    };
    for part in text.split('/') {
        add_part(alloc, &mut program, &mut bodies, part)?;
    }
    Ok(program)
}
