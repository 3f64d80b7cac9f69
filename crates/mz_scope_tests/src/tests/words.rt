//! A program in words, for the tests.
use mz_tree::{Atom, Body, Case, Command, Fun, Names, Op, Place, Program, Texts, Ty};
use std::alloc::Global;
use std::test::Fail;

fn place(alloc: Global, place: Place, out: &mut String) -> Result<(), Fail> {
    let text = format!(in alloc; "{}:{}", place.line, place.col)?;
    out.push_str(&text)?;
    Ok(())
}

fn numbers(alloc: Global, numbers: &Names, out: &mut String) -> Result<(), Fail> {
    out.push_str("[")?;
    for number in numbers.as_slice() {
        let text = format!(in alloc; " {}", *number)?;
        out.push_str(&text)?;
    }
    out.push_str("]")?;
    Ok(())
}

#[cycle(types)]
fn atom(alloc: Global, one: &Atom, out: &mut String) -> Result<(), Fail> {
    match one {
        Atom::Has { name, ty: its } => {
            let text = format!(in alloc; "{}@", *name)?;
            out.push_str(&text)?;
            ty(alloc, its, out)
        }
        Atom::Same { left, right } => {
            let text = format!(in alloc; "{}={}", *left, *right)?;
            out.push_str(&text)?;
            Ok(())
        }
    }
}

#[cycle(types)]
fn atoms(alloc: Global, all: &[Atom], out: &mut String) -> Result<(), Fail> {
    for i in 0..all.len() {
        out.push_str(" ")?;
        atom(alloc, &all[i], out)?;
    }
    Ok(())
}

#[cycle(types)]
fn ty(alloc: Global, one: &Ty, out: &mut String) -> Result<(), Fail> {
    match one {
        Ty::Int => out.push_str("int")?,
        Ty::Unknown => out.push_str("unknown")?,
        Ty::Dynamic => out.push_str("dynamic")?,
        Ty::Locked => out.push_str("locked")?,
        Ty::Named(number) => {
            let text = format!(in alloc; "d{}", *number)?;
            out.push_str(&text)?;
        }
        Ty::Function(number) => {
            let text = format!(in alloc; "s{}", *number)?;
            out.push_str(&text)?;
        }
        Ty::Block {
            con,
            fields,
            adopts,
        } => {
            let text = format!(in alloc; "c{}", *con)?;
            out.push_str(&text)?;
            numbers(alloc, fields, out)?;
            if let Some(adopts) = adopts {
                let text = format!(in alloc; "+d{}", *adopts)?;
                out.push_str(&text)?;
            }
        }
        Ty::Lock(guarded) => {
            out.push_str("lock(")?;
            atoms(alloc, guarded.as_slice(), out)?;
            out.push_str(")")?;
        }
    }
    Ok(())
}

#[cycle(bodies)]
fn op(alloc: Global, one: &Op, out: &mut String) -> Result<(), Fail> {
    match one {
        Op::Int(n) => {
            let text = format!(in alloc; "int {}", *n)?;
            out.push_str(&text)?;
        }
        Op::Unit => out.push_str("unit")?,
        Op::Fun(f) => {
            let text = format!(in alloc; "fun {}", *f)?;
            out.push_str(&text)?;
        }
        Op::Copy(x) => {
            let text = format!(in alloc; "copy {}", *x)?;
            out.push_str(&text)?;
        }
        Op::Arith { op, left, right } => {
            let text = format!(in alloc; "{:?} {} {}", *op, *left, *right)?;
            out.push_str(&text)?;
        }
        Op::New { con, fields } => {
            let text = format!(in alloc; "new {} ", *con)?;
            out.push_str(&text)?;
            numbers(alloc, fields, out)?;
        }
        Op::Read { block, con, field } => {
            let text = format!(in alloc; "read {} {} {}", *block, *con, *field)?;
            out.push_str(&text)?;
        }
        Op::Write {
            block,
            con,
            field,
            from,
        } => {
            let text = format!(in alloc; "write {} {} {} {}", *block, *con, *field, *from)?;
            out.push_str(&text)?;
        }
        Op::Retag { block, from, to } => {
            let text = format!(in alloc; "retag {} {} {}", *block, *from, *to)?;
            out.push_str(&text)?;
        }
        Op::If {
            test,
            yes,
            other,
            giving,
        } => {
            let text = format!(in alloc; "if {} ", *test)?;
            out.push_str(&text)?;
            body(alloc, yes, out)?;
            out.push_str(" ")?;
            body(alloc, other, out)?;
            atoms(alloc, giving.as_slice(), out)?;
        }
        Op::Match {
            block,
            variety,
            cases,
            giving,
        } => {
            let text = format!(in alloc; "match {} d{}", *block, *variety)?;
            out.push_str(&text)?;
            arms(alloc, cases.as_slice(), out)?;
            atoms(alloc, giving.as_slice(), out)?;
        }
        Op::Call { callee, args } => {
            let text = format!(in alloc; "call {} ", *callee)?;
            out.push_str(&text)?;
            numbers(alloc, args, out)?;
        }
        Op::Give { block, adopter } => {
            let text = format!(in alloc; "give {} {}", *block, *adopter)?;
            out.push_str(&text)?;
        }
        Op::Take { block, adopter } => {
            let text = format!(in alloc; "take {} {}", *block, *adopter)?;
            out.push_str(&text)?;
        }
        Op::NewLock(guarded) => {
            out.push_str("newlock")?;
            atoms(alloc, guarded.as_slice(), out)?;
        }
        Op::Acquire(lock) => {
            let text = format!(in alloc; "acquire {}", *lock)?;
            out.push_str(&text)?;
        }
        Op::Release(lock) => {
            let text = format!(in alloc; "release {}", *lock)?;
            out.push_str(&text)?;
        }
        Op::Spawn { callee, arg } => {
            let text = format!(in alloc; "spawn {} {}", *callee, *arg)?;
            out.push_str(&text)?;
        }
        Op::Print(x) => {
            let text = format!(in alloc; "print {}", *x)?;
            out.push_str(&text)?;
        }
    }
    Ok(())
}

#[cycle(bodies)]
fn arms(alloc: Global, cases: &[Case], out: &mut String) -> Result<(), Fail> {
    for i in 0..cases.len() {
        let text = format!(in alloc; " c{} ", cases[i].con)?;
        out.push_str(&text)?;
        body(alloc, &cases[i].body, out)?;
    }
    Ok(())
}

#[cycle(bodies)]
fn commands(alloc: Global, all: &[Command], out: &mut String) -> Result<(), Fail> {
    for i in 0..all.len() {
        let text = format!(in alloc; "{} ", all[i].to)?;
        out.push_str(&text)?;
        op(alloc, &all[i].op, out)?;
        out.push_str(" ")?;
        place(alloc, all[i].place, out)?;
        out.push_str("; ")?;
    }
    Ok(())
}

// `[commands; = value place]`
#[cycle(bodies)]
fn body(alloc: Global, one: &Body, out: &mut String) -> Result<(), Fail> {
    out.push_str("[")?;
    commands(alloc, one.commands.as_slice(), out)?;
    let text = format!(in alloc; "= {} ", one.result)?;
    out.push_str(&text)?;
    place(alloc, one.place, out)?;
    out.push_str("]")?;
    Ok(())
}

// one text, or `_` where it is empty
fn name(text: &[u8], out: &mut String) -> Result<(), Fail> {
    if text.is_empty() {
        out.push_str("_")?;
    }
    for byte in text {
        out.push(*byte as char)?;
    }
    Ok(())
}

fn names(all: &Texts, out: &mut String) -> Result<(), Fail> {
    for text in all.as_slice() {
        out.push_str(" ")?;
        name(text.as_slice(), out)?;
    }
    Ok(())
}

/// A function: its name, its signature, its body and its core names.
pub(crate) fn function(alloc: Global, one: &Fun, out: &mut String) -> Result<(), Fail> {
    out.push_str("fun ")?;
    name(one.name.as_slice(), out)?;
    let text = format!(in alloc; " s{} ", one.sig)?;
    out.push_str(&text)?;
    body(alloc, &one.body, out)?;
    names(&one.spelling, out)
}

/// The data types, constructors, signatures and `adopts` of structural types of a program.
pub(crate) fn declared(alloc: Global, program: &Program, out: &mut String) -> Result<(), Fail> {
    for variety in program.varieties.as_slice() {
        out.push_str("data ")?;
        name(variety.name.as_slice(), out)?;
        let text = format!(in alloc; " {:?} {:?} ", variety.mutable, variety.adopts)?;
        out.push_str(&text)?;
        numbers(alloc, &variety.cons, out)?;
        out.push_str(" ")?;
        place(alloc, variety.place, out)?;
        out.push_str("; ")?;
    }
    for con in program.cons.as_slice() {
        out.push_str("con ")?;
        name(con.name.as_slice(), out)?;
        let text = format!(in alloc; " d{}", con.variety)?;
        out.push_str(&text)?;
        for field in con.fields.as_slice() {
            out.push_str(" ")?;
            name(field.name.as_slice(), out)?;
            out.push_str(":")?;
            atom(alloc, &field.content, out)?;
        }
        out.push_str("; ")?;
    }
    for sig in program.sigs.as_slice() {
        out.push_str("sig ")?;
        name(sig.name.as_slice(), out)?;
        let text = format!(in alloc; " {}", sig.count)?;
        out.push_str(&text)?;
        for need in sig.needs.as_slice() {
            out.push_str(if need.consumed { " -" } else { " " })?;
            atom(alloc, &need.atom, out)?;
        }
        out.push_str(" ->")?;
        atoms(alloc, sig.gives.as_slice(), out)?;
        out.push_str("; ")?;
    }
    for clause in program.clauses.as_slice() {
        let text = format!(in alloc; "clause c{}+d{} ", clause.con, clause.adopts)?;
        out.push_str(&text)?;
        place(alloc, clause.place, out)?;
        out.push_str("; ")?;
    }
    Ok(())
}
