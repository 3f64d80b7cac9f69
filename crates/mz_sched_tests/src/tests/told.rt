//! Reports in words.
use mz_tape::Kind;
use mz_tree::Place;
use mz_words::{End, Report};
use std::alloc::Global;
use std::test::Fail;

/// An end with its place.
fn placed(alloc: Global, name: &str, place: Place) -> Result<String, Fail> {
    Ok(format!(in alloc; "{name} {}:{}", place.line, place.col)?)
}

fn end_told(alloc: Global, end: End) -> Result<String, Fail> {
    match end {
        End::TakeFailed(place) => placed(alloc, "TakeFailed", place),
        End::Arith(place) => placed(alloc, "Arith", place),
        End::HeapFull(place) => placed(alloc, "HeapFull", place),
        End::ThreadsFull(place) => placed(alloc, "ThreadsFull", place),
        End::StackFull(place) => placed(alloc, "StackFull", place),
        End::Blocked(place) => placed(alloc, "Blocked", place),
        other => Ok(format!(in alloc; "{:?}", other)?),
    }
}

/// The numbers that a thread printed, each with its ticket.
fn prints_told(alloc: Global, report: &Report, thread: usize) -> Result<String, Fail> {
    let mut text = String::new(alloc);
    let part = report.parts.get(thread).ok_or("a thread has no record")?;
    for entry in part.iter() {
        if entry.kind == Kind::Print {
            text.push_str(format!(in alloc; " {}@{}", entry.value, entry.seen)?.as_str())?;
        }
    }
    Ok(text)
}

/// What a report says of one thread.
fn thread_told(alloc: Global, report: &Report, thread: usize) -> Result<String, Fail> {
    let end = *report.ends.get(thread).ok_or("a thread has no end")?;
    let lost = *report.lost.get(thread).ok_or("a thread has no tries")?;
    let part = report.parts.get(thread).ok_or("a thread has no record")?;
    let entries = part.len();
    let mut text = end_told(alloc, end)?;
    text.push_str(format!(in alloc; " {entries} entries")?.as_str())?;
    if lost != 0 {
        text.push_str(format!(in alloc; " {lost} lost")?.as_str())?;
    }
    text.push_str(prints_told(alloc, report, thread)?.as_str())?;
    Ok(text)
}

/// Threads that report the same, from one number to another.
fn group(alloc: Global, first: usize, last: usize, text: &str) -> Result<String, Fail> {
    if first == last {
        return Ok(format!(in alloc; "{last} {text}")?);
    }
    Ok(format!(in alloc; "{first}-{last} {text}")?)
}

/// What a report says of all threads.
pub(crate) fn told(alloc: Global, report: &Report) -> Result<String, Fail> {
    let mut text = String::new(alloc);
    let mut first = 0;
    for thread in 0..64usize {
        let now = thread_told(alloc, report, thread)?;
        if thread < 63 && thread_told(alloc, report, thread + 1)?.as_str() == now.as_str() {
            continue;
        }
        if first > 0 {
            text.push_str("; ")?;
        }
        text.push_str(group(alloc, first, thread, now.as_str())?.as_str())?;
        first = thread + 1;
    }
    Ok(text)
}

/// The entries of a thread.
pub(crate) fn entries_told(alloc: Global, report: &Report, thread: usize) -> Result<String, Fail> {
    let mut text = String::new(alloc);
    let part = report.parts.get(thread).ok_or("a thread has no record")?;
    for entry in part.iter() {
        if !text.is_empty() {
            text.push_str(", ")?;
        }
        let kind = entry.kind;
        let told = format!(in alloc; "{kind:?} {} {} {}", entry.place, entry.value, entry.seen)?;
        text.push_str(told.as_str())?;
    }
    Ok(text)
}
