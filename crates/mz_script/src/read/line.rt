//! What a line says, in any place.
ghost use Rattle.std.specs.Prelude.{◌≡◌, ◌∷◌, [], Some, IfOk, option_map};
ghost use Rattle.std.specs.Str.{bytes_eq};
ghost use Rattle.mz_tree.specs.Scoped.{Scoped};
ghost use Rattle.mz_tree.specs.View.{plain_atom, plain_atoms, plain_program};
ghost use Rattle.mz_view.specs.Steps.{plain_step};
ghost use Rattle.mz_script.specs.Fronts.{image, number_at, word_at};
ghost use Rattle.mz_script.specs.Pieces.{Case_line, Do_line, Fun_line, Join_line, Step_line};
ghost use Rattle.mz_script.specs.Places.{as_case, as_do, as_join, as_step, begins_fun, ends, heads};
ghost use Rattle.mz_script.specs.ReadLines.{any_line_at, body_line_at, piece_at, piece_of, step_at};
ghost use Rattle.mz_script.specs.ReadWords.{atom_at, atoms_at};
ghost use Rattle.mz_script.specs.Said.{plain_line};
ghost use Rattle.mz_script.specs.Stops.{Gives};

use crate::read::fronts::{behind, number, word};
use crate::read::steps::step;
use crate::read::stop::Stop;
use crate::read::types::{one_atom, some_atoms};
use mz_tree::{Atom, Atoms, Program, Text};
use mz_view::ViewStep;
use sqlite_items::Items;
use std::alloc::{AllocError, Global};

/// What a line says, in any place.
#[derive(Drop)]
pub(crate) enum Line {
    /// The first line of a script.
    Head,
    /// The function of this name begins.
    Fun(Text),
    /// A view step.
    Step(ViewStep),
    /// The next command, with the permission that it uses, if it names one.
    Do(Option<Atom>),
    /// A case begins, with its number.
    Case(u32),
    /// The permissions in which the cases join.
    Join(Atoms),
    /// A body ends.
    End,
    /// No line of the format.
    Other,
}

fn fun_line(alloc: Global, bytes: &[u8]) -> Result<(Line, &[u8]), Stop>
    ensures { Gives (λ x. (plain_line x.0, x.1.now)) result (image Fun_line word_at bytes.now) }
{
    let (word, rest) = word(bytes);
    let name = Items::from_slice(alloc, word)?;
    Ok((Line::Fun(name), rest))
}

fn do_line<'a>(alloc: Global, program: &Program, bytes: &'a [u8]) -> Result<(Line, &'a [u8]), Stop>
    requires scoped { Scoped (plain_program program.now) }
    ensures { Gives (λ x. (plain_line x.0, x.1.now)) result (image (λ a. Do_line (Some a)) (atom_at (plain_program program.now)) bytes.now) }
{
    let (atom, rest) = one_atom(alloc, program, bytes)?;
    Ok((Line::Do(Some(atom)), rest))
}

fn case_line(bytes: &[u8]) -> Result<(Line, &[u8]), Stop>
    ensures { Gives (λ x. (plain_line x.0, x.1.now)) result (image Case_line number_at bytes.now) }
{
    let (number, rest) = number(bytes)?;
    Ok((Line::Case(number), rest))
}

fn join_line<'a>(
    alloc: Global,
    program: &Program,
    bytes: &'a [u8],
) -> Result<(Line, &'a [u8]), Stop>
    requires scoped { Scoped (plain_program program.now) }
    ensures { Gives (λ x. (plain_line x.0, x.1.now)) result (image Join_line (atoms_at (plain_program program.now)) bytes.now) }
{
    let (atoms, rest) = some_atoms(alloc, program, bytes)?;
    Ok((Line::Join(atoms), rest))
}

fn step_line<'a>(
    alloc: Global,
    program: &Program,
    bytes: &'a [u8],
) -> Result<(Line, &'a [u8]), Stop>
    requires scoped { Scoped (plain_program program.now) }
    ensures { Gives (λ x. (plain_line x.0, x.1.now)) result (image Step_line (step_at (plain_program program.now)) bytes.now) }
{
    let (step, rest) = step(alloc, program, bytes)?;
    Ok((Line::Step(step), rest))
}

#[tactic(auto, unfolding(crate::specs::ReadLines::body_line_at, crate::specs::Fronts::choose_text))]
fn body_line<'a>(
    alloc: Global,
    program: &Program,
    bytes: &'a [u8],
) -> Result<(Line, &'a [u8]), Stop>
    requires scoped { Scoped (plain_program program.now) }
    ensures { Gives (λ x. (plain_line x.0, x.1.now)) result (body_line_at (plain_program program.now) bytes.now) }
{
    if let Some(rest) = behind(bytes, b"join ") {
        return join_line(alloc, program, rest);
    }
    if let Some(rest) = behind(bytes, b"join") {
        return Ok((Line::Join(Items::new(alloc)), rest));
    }
    if let Some(rest) = behind(bytes, b"end") {
        return Ok((Line::End, rest));
    }
    step_line(alloc, program, bytes)
}

#[tactic(auto, unfolding(crate::specs::ReadLines::piece_at, crate::specs::Fronts::choose_text))]
fn command_line<'a>(
    alloc: Global,
    program: &Program,
    bytes: &'a [u8],
) -> Result<(Line, &'a [u8]), Stop>
    requires scoped { Scoped (plain_program program.now) }
    ensures { Gives (λ x. (plain_line x.0, x.1.now)) result (piece_at (plain_program program.now) bytes.now) }
{
    if let Some(rest) = behind(bytes, b"do ") {
        return do_line(alloc, program, rest);
    }
    if let Some(rest) = behind(bytes, b"do") {
        return Ok((Line::Do(None), rest));
    }
    if let Some(rest) = behind(bytes, b"case ") {
        return case_line(rest);
    }
    body_line(alloc, program, bytes)
}

#[tactic(auto, unfolding(crate::specs::ReadLines::any_line_at, crate::specs::Fronts::choose_text))]
fn any_line<'a>(alloc: Global, program: &Program, bytes: &'a [u8]) -> Result<(Line, &'a [u8]), Stop>
    requires scoped { Scoped (plain_program program.now) }
    ensures { Gives (λ x. (plain_line x.0, x.1.now)) result (any_line_at (plain_program program.now) bytes.now) }
{
    if let Some(rest) = behind(bytes, b"%derivation 1") {
        return Ok((Line::Head, rest));
    }
    if let Some(rest) = behind(bytes, b"fun ") {
        return fun_line(alloc, rest);
    }
    command_line(alloc, program, bytes)
}

// Whether nothing but a line's end is left.
fn at_end(bytes: &[u8]) -> bool
    ensures { result ≡ bytes_eq bytes.now (10 ∷ []) }
{
    bytes == b"\n".as_slice()
}

/// What this line says, its end included.
#[tactic(auto, unfolding(crate::specs::ReadLines::piece_of))]
pub(crate) fn said(alloc: Global, program: &Program, line: &[u8]) -> Result<Line, AllocError>
    requires scoped { Scoped (plain_program program.now) }
    ensures { IfOk result (λ l. plain_line l ≡ piece_of (plain_program program.now) line.now) }
{
    match any_line(alloc, program, line) {
        Ok((said, rest)) => {
            if at_end(rest) {
                Ok(said)
            } else {
                Ok(Line::Other)
            }
        }
        Err(Stop::Unexpected(_)) => Ok(Line::Other),
        Err(Stop::Memory) => Err(AllocError),
    }
}

/// Whether it is the first line of a script.
pub(crate) fn is_head(line: Line) -> bool
    ensures { result ≡ heads (plain_line line) }
{
    match line {
        Line::Head => true,
        _ => false,
    }
}

/// Whether it begins the function of this name.
pub(crate) fn is_fun(line: Line, name: &[u8]) -> bool
    ensures { result ≡ begins_fun name.now (plain_line line) }
{
    match line {
        Line::Fun(other) => name == other.as_slice(),
        _ => false,
    }
}

/// What a `do` uses.
pub(crate) fn as_do(line: Line) -> Option<Option<Atom>>
    ensures { option_map (option_map plain_atom) result ≡ as_do (plain_line line) }
{
    match line {
        Line::Do(uses) => Some(uses),
        _ => None,
    }
}

/// A view step.
pub(crate) fn as_step(line: Line) -> Option<ViewStep>
    ensures { option_map plain_step result ≡ as_step (plain_line line) }
{
    match line {
        Line::Step(step) => Some(step),
        _ => None,
    }
}

/// The number of a case.
pub(crate) fn as_case(line: Line) -> Option<u32>
    ensures { result ≡ as_case (plain_line line) }
{
    match line {
        Line::Case(number) => Some(number),
        _ => None,
    }
}

/// The permissions of a join.
pub(crate) fn as_join(line: Line) -> Option<Atoms>
    ensures { option_map plain_atoms result ≡ as_join (plain_line line) }
{
    match line {
        Line::Join(atoms) => Some(atoms),
        _ => None,
    }
}

/// Whether it is the end of a body.
pub(crate) fn is_end(line: Line) -> bool
    ensures { result ≡ ends (plain_line line) }
{
    match line {
        Line::End => true,
        _ => false,
    }
}
