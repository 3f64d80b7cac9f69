//! The texts that the program writes.
ghost use Rattle.std.specs.Prelude.{◌≡◌, ◌++◌, IfOk, string_bytes, codes};
ghost use Rattle.mz_cli.specs.Outcome.{line, print_lines, stop_line, usage_line};
ghost use Rattle.mz_cli.specs.Refusals.{at_place, at_line, bad_step, refusal_text};

use crate::refusal::Refusal;
use mz_tree::{Memory, Place};
use std::alloc::Global;

/// The line of a call whose words aren't taken.
pub const USAGE: &str =
    "usage: mezzo MODE [--heap N] [--steps N] [--tries N] [--workers N] [--quantum N] [--size N]\n";

/// The line of a derivation that is one.
pub const ACCEPTED: &str = "accepted\n";

/// Each print as its decimal digits and a line end.
pub fn printed(alloc: Global, prints: &[u64]) -> Result<String, Memory>
    ensures { IfOk result (λ text. string_bytes text ≡ print_lines prints.now) }
{
    let mut text = String::new(alloc);
    for print in prints {
        let digits = format!(in alloc; "{}\n", *print)?;
        text.push_str(&digits)?;
    }
    Ok(text)
}

/// The line of thread 0 that stopped at the arithmetic command at this place.
pub fn stopped(alloc: Global, place: Place) -> Result<String, Memory>
    ensures { IfOk result (λ text. string_bytes text ≡ stop_line place) }
{
    let text = format!(in alloc;
        "stopped: thread 0: arithmetic at {}:{}\n",
        place.line, place.col
    )?;
    Ok(text)
}

// What is wrong at a place, as a line.
fn at_place(alloc: Global, place: Place, what: &str) -> Result<String, Memory>
    ensures { IfOk result (λ text. string_bytes text ≡ line (at_place place what.now)) }
{
    let text = format!(in alloc; "refused: {}:{}: {}\n", place.line, place.col, what)?;
    Ok(text)
}

// What is wrong with a line of a script, as a line.
fn at_line(alloc: Global, number: u32) -> Result<String, Memory>
    ensures { IfOk result (λ text. string_bytes text ≡ line (at_line number)) }
{
    let text = format!(in alloc; "refused: line {}\n", number)?;
    Ok(text)
}

// That a view step has no instance, as a line.
fn at_step(alloc: Global, place: Place, step: u64) -> Result<String, Memory>
    ensures { IfOk result (λ text. string_bytes text ≡ line (at_place place (bad_step step))) }
{
    let text = format!(in alloc;
        "refused: {}:{}: bad step {}\n",
        place.line, place.col, step
    )?;
    Ok(text)
}

/// The line of a refusal.
pub fn refused(alloc: Global, refusal: Refusal) -> Result<String, Memory>
    ensures { IfOk result (λ text. string_bytes text ≡ line (refusal_text refusal)) }
{
    match refusal {
        Refusal::TooLong => Ok(String::from_str(alloc, "refused: too long\n")?),
        Refusal::BadByte(place) => at_place(alloc, place, "bad byte"),
        Refusal::BadNumber(place) => at_place(alloc, place, "bad number"),
        Refusal::NameTooLong(place) => at_place(alloc, place, "name too long"),
        Refusal::Unexpected(place) => at_place(alloc, place, "unexpected"),
        Refusal::TooDeep(place) => at_place(alloc, place, "too deep"),
        Refusal::UnknownName(place) => at_place(alloc, place, "unknown name"),
        Refusal::DeclaredTwice(place) => at_place(alloc, place, "declared twice"),
        Refusal::WrongShape(place) => at_place(alloc, place, "wrong shape"),
        Refusal::CasesMissing(place) => at_place(alloc, place, "cases missing"),
        Refusal::TooMany(place) => at_place(alloc, place, "too many"),
        Refusal::NoMain => Ok(String::from_str(alloc, "refused: 1:1: no main\n")?),
        Refusal::ImmutableAdopter(place) => at_place(alloc, place, "immutable adopter"),
        Refusal::NotExclusive(place) => at_place(alloc, place, "not exclusive"),
        Refusal::Unbuilt => Ok(String::from_str(alloc, "refused: not built yet\n")?),
        Refusal::WrongLine(number) => at_line(alloc, number),
        Refusal::BadStep(place, step) => at_step(alloc, place, step),
        Refusal::BadCommand(place) => at_place(alloc, place, "bad command"),
        Refusal::BadJoin(place) => at_place(alloc, place, "bad join"),
    }
}
