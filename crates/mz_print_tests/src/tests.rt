//! Reports of 64 threads, and the numbers that they printed.
use mz_print::prints;
use mz_tape::{Entry, Kind, Tape};
use mz_words::{End, Report};
use sqlite_items::Items;
use std::alloc::Global;
use std::test::Fail;
use tables::REPORTS;
use tickets::are_in_order;

mod tables;
mod tickets;

/// The kind that a row names.
fn kind_of(name: &str) -> Result<Kind, Fail> {
    match name {
        "load" => Ok(Kind::Load),
        "store" => Ok(Kind::Store),
        "add" => Ok(Kind::Add),
        "print" => Ok(Kind::Print),
        _ => Err("there is no such kind")?,
    }
}

/// Puts an entry at the end of the record of its thread: thread, kind, value and what was seen.
fn put(alloc: Global, tapes: &mut Vec<Tape>, text: &str) -> Result<(), Fail> {
    let words: Vec<&str> = text.split_whitespace().collect(alloc)?;
    let actor: u32 = words.first().ok_or("an entry has no thread")?.parse()?;
    let kind = kind_of(words.get(1).ok_or("an entry has no kind")?)?;
    let value = words.get(2).ok_or("an entry has no value")?.parse()?;
    let seen = words.get(3).ok_or("an entry saw nothing")?.parse()?;
    let tape = tapes
        .get_mut(actor as usize)
        .ok_or("there is no such thread")?;
    tape.reserve(1)?;
    tape.push(Entry {
        actor,
        place: 4,
        kind,
        value,
        seen,
    });
    Ok(())
}

/// A report of 64 threads, all of which are done, with these entries.
fn report_of(alloc: Global, entries: &str) -> Result<Report, Fail> {
    let mut tapes = Vec::new(alloc);
    for _thread in 0..64u32 {
        tapes.push(Tape::new(alloc))?;
    }
    for entry in entries.split(',') {
        if !entry.trim().is_empty() {
            put(alloc, &mut tapes, entry)?;
        }
    }
    Ok(Report {
        parts: Items::from_vec(tapes),
        ends: Items::from_vec(Vec::from_elem(alloc, End::Done, 64)?),
        lost: Items::from_vec(Vec::from_elem(alloc, 0, 64)?),
        words: Items::new(alloc),
    })
}

/// The numbers of a row, as text.
fn printed(alloc: Global, entries: &str) -> Result<String, Fail> {
    let report = report_of(alloc, entries)?;
    if !are_in_order(alloc, &report)? {
        return Err("the tickets aren't in order")?;
    }
    let mut text = String::new(alloc);
    for number in prints(alloc, &report)?.as_slice() {
        text.push_str(format!(in alloc; "{number} ")?.as_str())?;
    }
    Ok(text)
}

/// Whether the report of a row comes to the numbers that the row says.
fn row_is_so(alloc: Global, row: &str) -> Result<bool, Fail> {
    let columns: Vec<&str> = row.split('|').collect(alloc)?;
    let entries = columns.get(1).ok_or("a row has no entries")?;
    let wanted = columns.get(2).ok_or("a row has no numbers")?;
    let found = printed(alloc, entries)?;
    Ok(found.as_str().trim() == wanted.trim())
}

#[test]
fn numbers_go_by_ticket(rt: HostRuntime) -> Result<(), Fail> {
    let alloc = rt.alloc();
    for row in REPORTS.lines() {
        assert!(rt; row_is_so(alloc, row)?, "{row}");
    }
    Ok(())
}
