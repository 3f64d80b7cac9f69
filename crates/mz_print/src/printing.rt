//! The printed numbers of a report: each is put at its ticket.
ghost use Rattle.std.specs.Prelude.{◌≡◌, IfOk, length};
ghost use Rattle.mz_words.specs.Tickets.{is_print, prints_among};
ghost use Rattle.mz_print.specs.Prints.{TicketsAreInOrder, PrintsOf, all_entries};

use mz_tape::{Kind, Tape};
use mz_tree::Memory;
use mz_words::Report;
use std::alloc::Global;

fn is_print(kind: Kind) -> bool
    ensures { result ≡ is_print kind }
{
    match kind {
        Kind::Print => true,
        _ => false,
    }
}

/// How many prints the records have. A number that doesn't fit has no room in memory.
fn count_prints(parts: &[Tape]) -> Result<usize, Memory>
    ensures { IfOk result (λ n. n ≡ length (prints_among (all_entries parts.now))) }
{
    let mut count: usize = 0;
    for k in 0..parts.len() {
        for entry in parts[k].iter() {
            if is_print(entry.kind) {
                count = match count.checked_add(1) {
                    Some(more) => more,
                    None => return Err(Memory),
                };
            }
        }
    }
    Ok(count)
}

/// The numbers that were printed, in the order of their tickets. The tickets are 0, 1, 2 and so on, each drawn once. Only memory
/// may be wanting.
pub fn prints(alloc: Global, report: &Report) -> Result<Vec<u64>, Memory>
    requires { TicketsAreInOrder report.now }
    ensures { IfOk result (λ v. PrintsOf report.now v.items) }
{
    let parts = report.parts.as_slice();
    let mut numbers = Vec::from_elem(alloc, 0, count_prints(parts)?)?;
    for k in 0..parts.len() {
        for entry in parts[k].iter() {
            if is_print(entry.kind) {
                numbers[entry.seen as usize] = entry.value;
            }
        }
    }
    Ok(numbers)
}
