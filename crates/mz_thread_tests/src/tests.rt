//! Each end of a thread: in which turn it comes, how many entries the record has then, and how many tries were lost.
use crate::runs::{Store, open, run};
use code::{code_of, numbers, small};
use mz_thread::{Thread, Turn};
use mz_words::{End, Options, PlainWords};
use std::alloc::Global;
use std::test::Fail;
use tables::ENDS;

mod code;
mod tables;

/// The limits of a run: words, units, tries, and the units of a turn.
fn limits(alloc: Global, text: &str) -> Result<Options, Fail> {
    let found = numbers(alloc, text)?;
    let n = found.as_slice();
    Ok(Options {
        heap: small(n, 0)?,
        steps: small(n, 1)?,
        tries: small(n, 2)?,
        workers: 1,
        quantum: small(n, 3)?,
    })
}

/// What another actor stores: before which turn, the place and the value.
fn stores_of(alloc: Global, text: &str) -> Result<Vec<Store>, Fail> {
    let mut found = Vec::new(alloc);
    if text.trim().is_empty() {
        return Ok(found);
    }
    for part in text.split('+') {
        let numbers = numbers(alloc, part)?;
        let n = numbers.as_slice();
        found.push(Store {
            turn: small(n, 0)?,
            place: small(n, 1)?,
            value: small(n, 2)? as u64,
        })?;
    }
    Ok(found)
}

/// How a turn ended, in words.
fn end_told(alloc: Global, turn: Turn) -> Result<String, Fail> {
    match turn {
        Turn::Again => Ok(String::from_str(alloc, "again")?),
        Turn::Wild => Ok(String::from_str(alloc, "wild")?),
        Turn::Ended(end) => match end {
            End::TakeFailed(place) => Ok(format!(in alloc; "TakeFailed {}", place.line)?),
            End::Arith(place) => Ok(format!(in alloc; "Arith {}", place.line)?),
            End::HeapFull(place) => Ok(format!(in alloc; "HeapFull {}", place.line)?),
            End::ThreadsFull(place) => Ok(format!(in alloc; "ThreadsFull {}", place.line)?),
            End::StackFull(place) => Ok(format!(in alloc; "StackFull {}", place.line)?),
            End::Blocked(place) => Ok(format!(in alloc; "Blocked {}", place.line)?),
            other => Ok(format!(in alloc; "{:?}", other)?),
        },
    }
}

/// What a thread has come to.
fn told(
    alloc: Global,
    turn: Turn,
    turns: u32,
    thread: &Thread,
    words: &PlainWords,
) -> Result<String, Fail> {
    let end = end_told(alloc, turn)?;
    let entries = words.part(0).len();
    let lost = thread.lost();
    Ok(format!(in alloc;
        "{}, turn {turns}, {entries} entries, {lost} lost",
        end.as_str()
    )?)
}

/// What comes of a row, and what it says.
fn row_told(alloc: Global, row: &str) -> Result<(String, bool), Fail> {
    let columns: Vec<&str> = row.split('|').collect(alloc)?;
    let functions = columns.get(1).ok_or("a row has no functions")?;
    let instructions = columns.get(2).ok_or("a row has no instructions")?;
    let code = code_of(alloc, functions, instructions)?;
    let options = limits(alloc, columns.get(3).ok_or("a row has no limits")?)?;
    let stores = stores_of(alloc, columns.get(4).ok_or("a row has no stores")?)?;
    let wanted = columns.get(5).ok_or("a row has no end")?;
    let (mut thread, mut words) = open(alloc, &code, &options)?.ok_or("a row isn't lawful")?;
    let (turn, turns) = run(
        &mut thread,
        &code,
        &mut words,
        &options,
        stores.as_slice(),
        9,
    )?;
    let found = told(alloc, turn, turns, &thread, &words)?;
    let is_so = found.as_str() == wanted.trim();
    if let Turn::Ended(_) = turn {
        let (again, _) = run(&mut thread, &code, &mut words, &options, &[], 1)?;
        let later = told(alloc, again, turns, &thread, &words)?;
        return Ok((found, is_so && later.as_str() == wanted.trim()));
    }
    Ok((found, is_so))
}

/// An end comes at its moment, and is told again by another turn, which makes no entry.
#[test]
fn ends_come_at_their_moment(rt: HostRuntime) -> Result<(), Fail> {
    for row in ENDS.lines() {
        let (found, is_so) = row_told(rt.alloc(), row)?;
        assert!(rt; is_so, "{row}: {found}");
    }
    Ok(())
}
