//! What the schedule reports of sources, under some limits.
use crate::checked::report;
use mz_tape::Kind;
use mz_words::{Options, Report};
use sources::source_of;
use std::alloc::Global;
use std::test::Fail;
use tables::{CELL_ENTRIES, REPORTS, SUM_ENTRIES};
use told::{entries_told, told};

mod sources;
mod tables;
mod told;

/// One of the numbers of the limits.
fn number(numbers: &[&str], at: usize) -> Result<u32, Fail> {
    let text = numbers.get(at).ok_or("a number is missing")?;
    Ok(text.parse()?)
}

/// The limits of a run: words, units, tries, workers, and the units of a turn.
fn limits(alloc: Global, text: &str) -> Result<Options, Fail> {
    let numbers: Vec<&str> = text.split_whitespace().collect(alloc)?;
    let numbers = numbers.as_slice();
    Ok(Options {
        heap: number(numbers, 0)?,
        steps: number(numbers, 1)?,
        tries: number(numbers, 2)?,
        workers: number(numbers, 3)?,
        quantum: number(numbers, 4)?,
    })
}

/// The report of a source under limits, or none where something is refused.
fn run(alloc: Global, name: &str, text: &str) -> Result<Option<Report>, Fail> {
    let options = limits(alloc, text)?;
    let Some((source, script)) = source_of(name) else {
        return Err("there is no such source")?;
    };
    Ok(report(alloc, source.as_bytes(), script.as_bytes(), &options))
}

/// What comes of a row, and what it says.
fn row_told(alloc: Global, row: &str) -> Result<(String, bool), Fail> {
    let columns: Vec<&str> = row.split('|').collect(alloc)?;
    let name = columns.get(1).ok_or("a row has no source")?;
    let limits = columns.get(2).ok_or("a row has no limits")?;
    let wanted = columns.get(3).ok_or("a row has no report")?;
    let found = match run(alloc, name.trim(), limits)? {
        Some(report) => told(alloc, &report)?,
        None => String::from_str(alloc, "none")?,
    };
    let is_so = found.as_str() == wanted.trim();
    Ok((found, is_so))
}

#[test]
fn sources_have_their_reports(rt: HostRuntime) -> Result<(), Fail> {
    for row in REPORTS.lines() {
        let (found, is_so) = row_told(rt.alloc(), row)?;
        assert!(rt; is_so, "{row}: {found}");
    }
    Ok(())
}

/// The report of a source whose run is lawful, under limits.
fn lawful(alloc: Global, name: &str, text: &str) -> Result<Report, Fail> {
    Ok(run(alloc, name, text)?.ok_or("a row is refused")?)
}

const DEFAULT: &str = "65536 200000 100000000 4 64";

#[test]
fn one_cell_is_twelve_entries(rt: HostRuntime) -> Result<(), Fail> {
    let alloc = rt.alloc();
    let report = lawful(alloc, "cell", DEFAULT)?;
    assert_eq!(rt; entries_told(alloc, &report, 0)?.as_str(), CELL_ENTRIES);
    for thread in 1..64usize {
        assert_eq!(rt;
            entries_told(alloc, &report, thread)?.as_str(),
            "Load 2 0 0"
        );
    }
    Ok(())
}

#[test]
fn a_stop_is_told_to_all(rt: HostRuntime) -> Result<(), Fail> {
    let alloc = rt.alloc();
    let report = lawful(alloc, "sum", DEFAULT)?;
    assert_eq!(rt; entries_told(alloc, &report, 0)?.as_str(), SUM_ENTRIES);
    for thread in 1..64usize {
        assert_eq!(rt;
            entries_told(alloc, &report, thread)?.as_str(),
            "Load 3 0 1"
        );
    }
    Ok(())
}

/// What each draw of words of thread 0 saw.
fn draws(alloc: Global, report: &Report) -> Result<Vec<u64>, Fail> {
    let mut found = Vec::new(alloc);
    let part = report.parts.get(0).ok_or("a thread has no record")?;
    for entry in part.iter() {
        if entry.kind == Kind::Add && entry.place == 0 {
            found.push(entry.seen)?;
        }
    }
    Ok(found)
}

/// 275 blocks of three words fit behind the header; the next draw sees two words that are left.
#[test]
fn blocks_fill_the_words(rt: HostRuntime) -> Result<(), Fail> {
    let alloc = rt.alloc();
    let report = lawful(alloc, "grow", "1024 200000 100000000 4 64")?;
    let draws = draws(alloc, &report)?;
    let mut seen: u64 = 197;
    for draw in draws.as_slice() {
        assert_eq!(rt; *draw, seen);
        seen = seen.wrapping_add(3);
    }
    assert_eq!(rt; draws.len(), 276);
    assert_eq!(rt; draws.get(275).copied(), Some(1022));
    let words = report.words.as_slice();
    assert_eq!(rt; words.len(), 1024);
    assert!(rt; words.starts_with(&[1025, 1, 1, 1]));
    Ok(())
}
