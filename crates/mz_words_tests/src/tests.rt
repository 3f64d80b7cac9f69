//! Tapes of several lengths, and calls on plain words: what each answers, which entry it makes, and how many tries were lost.
use calls::{make, told};
use mz_tape::{Entry, Kind, Tape};
use mz_words::PlainWords;
use std::alloc::Global;
use std::test::Fail;
use tables::CALLS;

mod calls;
mod tables;

/// A tape of so many entries, whose values count from 0, pushed into room that was made once.
fn tape_of(alloc: Global, count: u64) -> Result<Tape, Fail> {
    let mut tape = Tape::new(alloc);
    tape.reserve(count)?;
    for value in 0..count {
        if tape.spare() == 0 {
            return Err("the room is used up")?;
        }
        tape.push(Entry {
            actor: 5,
            place: 9,
            kind: Kind::Add,
            value,
            seen: 1,
        });
    }
    Ok(tape)
}

/// Whether a tape has so many entries, whose values count from 0.
fn counts(tape: &Tape, count: u64) -> bool {
    let mut next = 0;
    for entry in tape.iter() {
        if entry.value != next || entry.actor != 5 || entry.place != 9 || entry.seen != 1 {
            return false;
        }
        if next < count {
            next += 1;
        }
    }
    tape.len() == count && next == count
}

#[test]
fn tapes_keep_their_entries_in_order(rt: HostRuntime) -> Result<(), Fail> {
    for count in [0, 1, 1024, 1025, 3000] {
        let tape = tape_of(rt.alloc(), count)?;
        assert!(rt; counts(&tape, count), "{count} entries");
    }
    Ok(())
}

/// Whether the call of a row comes to what the row says.
fn row_is_so(alloc: Global, words: &mut PlainWords, row: &str) -> Result<bool, Fail> {
    let columns: Vec<&str> = row.split('|').collect(alloc)?;
    let call = columns.get(1).ok_or("a row has no call")?;
    let wanted = columns.get(2).ok_or("a row has no answer")?;
    let found = told(alloc, words, 0, call)?;
    Ok(found.as_str() == wanted.trim())
}

#[test]
fn calls_are_answered(rt: HostRuntime) -> Result<(), Fail> {
    let alloc = rt.alloc();
    let mut words = PlainWords::start(alloc, 1024, 7)?;
    for row in CALLS.lines() {
        assert!(rt; row_is_so(alloc, &mut words, row)?, "{row}");
    }
    Ok(())
}

/// The words at the opening are the header and zeros, up to the last one.
#[test]
fn words_begin_with_their_header(rt: HostRuntime) -> Result<(), Fail> {
    let mut words = PlainWords::start(rt.alloc(), 1024, 7)?;
    for (place, wanted) in [
        (0, 197),
        (1, 1),
        (2, 1),
        (3, 0),
        (4, 0),
        (5, 1),
        (6, 7),
        (7, 0),
        (8, 0),
        (196, 0),
        (197, 0),
        (1023, 0),
    ] {
        let found = make(&mut words, "load", place, 0)?;
        assert_eq!(rt; found, wanted, "word {place}");
    }
    Ok(())
}

/// Two actors step on the same words by turns. Each has a record, a count of lost tries and room of its own.
#[test]
fn actors_are_kept_apart(rt: HostRuntime) -> Result<(), Fail> {
    let alloc = rt.alloc();
    let mut words = PlainWords::start(alloc, 1024, 7)?;
    for (actor, call, wanted) in [
        (0, "try_lock 300 0", "1, Lock 300 1 0, 0 lost"),
        (63, "try_lock 300 0", "0, no entry, 1 lost"),
        (63, "store 301 8", "0, Store 301 8 0, 0 lost"),
        (63, "try_lock 300 0", "0, no entry, 1 lost"),
        (0, "load 301 0", "8, Load 301 0 8, 0 lost"),
    ] {
        let found = told(alloc, &mut words, actor, call)?;
        assert_eq!(rt; found.as_str(), wanted, "{call} of {actor}");
    }
    assert_eq!(rt; words.part(0).len(), 2);
    assert_eq!(rt; words.part(63).len(), 1);
    let (numbers, tapes) = words.close();
    assert_eq!(rt; numbers.as_slice().get(301).copied(), Some(8));
    assert_eq!(rt; numbers.len(), 1024);
    assert_eq!(rt; tapes.len(), 64);
    let last = tapes.as_slice().last().ok_or("there is no tape")?;
    assert_eq!(rt; last.iter().next().map(|entry| entry.actor), Some(63));
    Ok(())
}
