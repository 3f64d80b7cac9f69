//! Whether the tickets of a report are in order, found by looking for each of them.
ghost use Rattle.std.specs.Prelude.{◌≡◌, ◌==◌, IfOk, count_by, true};
ghost use Rattle.mz_words.specs.Tickets.{is_print};
ghost use Rattle.mz_print.specs.Prints.{AreInOrder, TicketsAreInOrder, prints_in};

use mz_tape::{Entry, Kind};
use mz_tree::Memory;
use mz_words::Report;
use std::alloc::Global;

fn is_print(kind: Kind) -> bool
    ensures { result ≡ is_print kind }
{
    match kind {
        Kind::Print => true,
        _ => false,
    }
}

/// The prints of all threads, those of thread 0 first.
fn all_prints(alloc: Global, report: &Report) -> Result<Vec<Entry>, Memory>
    ensures { IfOk result (λ v. v.items ≡ prints_in report.now) }
{
    let parts = report.parts.as_slice();
    let mut found = Vec::new(alloc);
    for k in 0..parts.len() {
        for entry in parts[k].iter() {
            if is_print(entry.kind) && found.push(*entry).is_err() {
                return Err(Memory);
            }
        }
    }
    Ok(found)
}

/// How many prints have this ticket.
fn drawn(prints: &[Entry], ticket: u64) -> usize
    ensures { result ≡ count_by (λ e. e.seen == ticket) prints.now }
{
    prints.iter().filter(|entry| entry.seen == ticket).count()
}

/// Whether the tickets are the numbers from 0 on, each once.
fn each_once(prints: &[Entry]) -> bool
    ensures { result ≡ true → AreInOrder prints.now }
{
    for entry in prints {
        if entry.seen >= prints.len() as u64 {
            return false;
        }
    }
    for ticket in 0..prints.len() {
        if drawn(prints, ticket as u64) != 1 {
            return false;
        }
    }
    true
}

/// Whether the tickets of a report are in order. Only memory may be wanting.
pub(crate) fn are_in_order(alloc: Global, report: &Report) -> Result<bool, Memory>
    ensures { IfOk result (λ b. b ≡ true → TicketsAreInOrder report.now) }
{
    Ok(each_once(all_prints(alloc, report)?.as_slice()))
}
