//! View steps, from the front of bytes: the word of the step's rule, and what the rule is used on.
ghost use Rattle.std.specs.Prelude.{◌≡◌};
ghost use Rattle.mz_tree.specs.Scoped.{Scoped};
ghost use Rattle.mz_tree.specs.View.{plain_atom, plain_program};
ghost use Rattle.mz_view.specs.Steps.{Copy_step, Drop_step, Dynamic_step, Fold_step, Unknown_step, plain_step};
ghost use Rattle.mz_script.specs.Fronts.{image, name_at};
ghost use Rattle.mz_script.specs.ReadLines.{clause_at, equal_at, field_at, last_steps_at, lock_at, meet_at, more_steps_at, place_at, rename_at, step_at, unfold_at};
ghost use Rattle.mz_script.specs.ReadWords.{atom_at};
ghost use Rattle.mz_script.specs.Stops.{Gives};

use crate::read::fronts::{behind, name, number, text};
use crate::read::look_ups::data;
use crate::read::stop::Stop;
use crate::read::types::one_atom;
use mz_tree::Program;
use mz_view::ViewStep;
use std::alloc::Global;

// Two names.
#[tactic(auto, unfolding(crate::specs::ReadLines::equal_at))]
fn equal(bytes: &[u8]) -> Result<(ViewStep, &[u8]), Stop>
    ensures { Gives (λ x. (plain_step x.0, x.1.now)) result (equal_at bytes.now) }
{
    let (left, rest) = name(bytes)?;
    let rest = text(rest, b" ")?;
    let (right, rest) = name(rest)?;
    Ok((ViewStep::Equal { left, right }, rest))
}

// A number, and the name that stands for the one there.
#[tactic(auto, unfolding(crate::specs::ReadLines::place_at))]
fn place(bytes: &[u8]) -> Result<(u32, u32, &[u8]), Stop>
    ensures { Gives (λ x. ((x.0, x.1), x.2.now)) result (place_at bytes.now) }
{
    let (place, rest) = number(bytes)?;
    let rest = text(rest, b" to ")?;
    let (to, rest) = name(rest)?;
    Ok((place, to, rest))
}

#[tactic(auto, unfolding(crate::specs::ReadLines::unfold_at))]
fn unfold<'a>(program: &Program, bytes: &'a [u8]) -> Result<(ViewStep, &'a [u8]), Stop>
    requires scoped { Scoped (plain_program program.now) }
    ensures { Gives (λ x. (plain_step x.0, x.1.now)) result (unfold_at (plain_program program.now) bytes.now) }
{
    let (name, rest) = name(bytes)?;
    let rest = text(rest, b" ")?;
    let (variety, rest) = data(program, rest)?;
    let rest = text(rest, b" ")?;
    let (fresh, rest) = number(rest)?;
    Ok((
        ViewStep::Unfold {
            name,
            variety,
            fresh,
        },
        rest,
    ))
}

#[tactic(auto, unfolding(crate::specs::ReadLines::rename_at))]
fn rename<'a>(
    alloc: Global,
    program: &Program,
    bytes: &'a [u8],
) -> Result<(ViewStep, &'a [u8]), Stop>
    requires scoped { Scoped (plain_program program.now) }
    ensures { Gives (λ x. (plain_step x.0, x.1.now)) result (rename_at (plain_program program.now) bytes.now) }
{
    let (atom, rest) = one_atom(alloc, program, bytes)?;
    let rest = text(rest, b" to ")?;
    let (to, rest) = name(rest)?;
    Ok((ViewStep::Rename { atom, to }, rest))
}

#[tactic(auto, unfolding(crate::specs::ReadLines::clause_at))]
fn clause<'a>(
    alloc: Global,
    program: &Program,
    bytes: &'a [u8],
) -> Result<(ViewStep, &'a [u8]), Stop>
    requires scoped { Scoped (plain_program program.now) }
    ensures { Gives (λ x. (plain_step x.0, x.1.now)) result (clause_at (plain_program program.now) bytes.now) }
{
    let (atom, rest) = one_atom(alloc, program, bytes)?;
    let rest = text(rest, b" ")?;
    let (adopts, rest) = data(program, rest)?;
    Ok((ViewStep::Clause { atom, adopts }, rest))
}

#[tactic(auto, unfolding(crate::specs::ReadLines::meet_at))]
fn meet<'a>(alloc: Global, program: &Program, bytes: &'a [u8]) -> Result<(ViewStep, &'a [u8]), Stop>
    requires scoped { Scoped (plain_program program.now) }
    ensures { Gives (λ x. (plain_step x.0, x.1.now)) result (meet_at (plain_program program.now) bytes.now) }
{
    let (left, rest) = one_atom(alloc, program, bytes)?;
    let rest = text(rest, b" ")?;
    let (right, rest) = one_atom(alloc, program, rest)?;
    Ok((ViewStep::Meet { left, right }, rest))
}

#[tactic(auto, unfolding(crate::specs::ReadLines::field_at))]
fn in_field<'a>(
    alloc: Global,
    program: &Program,
    bytes: &'a [u8],
) -> Result<(ViewStep, &'a [u8]), Stop>
    requires scoped { Scoped (plain_program program.now) }
    ensures { Gives (λ x. (plain_step x.0, x.1.now)) result (field_at (plain_program program.now) bytes.now) }
{
    let (atom, rest) = one_atom(alloc, program, bytes)?;
    let rest = text(rest, b" ")?;
    let (field, to, rest) = place(rest)?;
    Ok((ViewStep::InField { atom, field, to }, rest))
}

#[tactic(auto, unfolding(crate::specs::ReadLines::lock_at))]
fn in_lock<'a>(
    alloc: Global,
    program: &Program,
    bytes: &'a [u8],
) -> Result<(ViewStep, &'a [u8]), Stop>
    requires scoped { Scoped (plain_program program.now) }
    ensures { Gives (λ x. (plain_step x.0, x.1.now)) result (lock_at (plain_program program.now) bytes.now) }
{
    let (atom, rest) = one_atom(alloc, program, bytes)?;
    let rest = text(rest, b" ")?;
    let (spot, to, rest) = place(rest)?;
    Ok((ViewStep::InLock { atom, spot, to }, rest))
}

fn drop_step<'a>(
    alloc: Global,
    program: &Program,
    bytes: &'a [u8],
) -> Result<(ViewStep, &'a [u8]), Stop>
    requires scoped { Scoped (plain_program program.now) }
    ensures { Gives (λ x. (plain_step x.0, x.1.now)) result (image Drop_step (atom_at (plain_program program.now)) bytes.now) }
{
    let (atom, rest) = one_atom(alloc, program, bytes)?;
    Ok((ViewStep::Drop { atom }, rest))
}

fn copy_step<'a>(
    alloc: Global,
    program: &Program,
    bytes: &'a [u8],
) -> Result<(ViewStep, &'a [u8]), Stop>
    requires scoped { Scoped (plain_program program.now) }
    ensures { Gives (λ x. (plain_step x.0, x.1.now)) result (image Copy_step (atom_at (plain_program program.now)) bytes.now) }
{
    let (atom, rest) = one_atom(alloc, program, bytes)?;
    Ok((ViewStep::Copy { atom }, rest))
}

fn fold_step<'a>(
    alloc: Global,
    program: &Program,
    bytes: &'a [u8],
) -> Result<(ViewStep, &'a [u8]), Stop>
    requires scoped { Scoped (plain_program program.now) }
    ensures { Gives (λ x. (plain_step x.0, x.1.now)) result (image Fold_step (atom_at (plain_program program.now)) bytes.now) }
{
    let (atom, rest) = one_atom(alloc, program, bytes)?;
    Ok((ViewStep::Fold { atom }, rest))
}

fn dynamic_step(bytes: &[u8]) -> Result<(ViewStep, &[u8]), Stop>
    ensures { Gives (λ x. (plain_step x.0, x.1.now)) result (image Dynamic_step name_at bytes.now) }
{
    let (name, rest) = name(bytes)?;
    Ok((ViewStep::Dynamic { name }, rest))
}

fn unknown_step(bytes: &[u8]) -> Result<(ViewStep, &[u8]), Stop>
    ensures { Gives (λ x. (plain_step x.0, x.1.now)) result (image Unknown_step name_at bytes.now) }
{
    let (name, rest) = name(bytes)?;
    Ok((ViewStep::Unknown { name }, rest))
}

#[tactic(auto, unfolding(crate::specs::ReadLines::last_steps_at, crate::specs::Fronts::choose_text))]
fn last_steps<'a>(
    alloc: Global,
    program: &Program,
    bytes: &'a [u8],
) -> Result<(ViewStep, &'a [u8]), Stop>
    requires scoped { Scoped (plain_program program.now) }
    ensures { Gives (λ x. (plain_step x.0, x.1.now)) result (last_steps_at (plain_program program.now) bytes.now) }
{
    if let Some(rest) = behind(bytes, b"meet ") {
        return meet(alloc, program, rest);
    }
    if let Some(rest) = behind(bytes, b"infield ") {
        return in_field(alloc, program, rest);
    }
    if let Some(rest) = behind(bytes, b"inlock ") {
        return in_lock(alloc, program, rest);
    }
    Err(Stop::Unexpected(bytes.len()))
}

#[tactic(auto, unfolding(crate::specs::ReadLines::more_steps_at, crate::specs::Fronts::choose_text))]
fn more_steps<'a>(
    alloc: Global,
    program: &Program,
    bytes: &'a [u8],
) -> Result<(ViewStep, &'a [u8]), Stop>
    requires scoped { Scoped (plain_program program.now) }
    ensures { Gives (λ x. (plain_step x.0, x.1.now)) result (more_steps_at (plain_program program.now) bytes.now) }
{
    if let Some(rest) = behind(bytes, b"equal ") {
        return equal(rest);
    }
    if let Some(rest) = behind(bytes, b"dynamic ") {
        return dynamic_step(rest);
    }
    if let Some(rest) = behind(bytes, b"clause ") {
        return clause(alloc, program, rest);
    }
    if let Some(rest) = behind(bytes, b"unknown ") {
        return unknown_step(rest);
    }
    last_steps(alloc, program, bytes)
}

/// A view step.
#[tactic(auto, unfolding(crate::specs::ReadLines::step_at, crate::specs::Fronts::choose_text))]
pub(crate) fn step<'a>(
    alloc: Global,
    program: &Program,
    bytes: &'a [u8],
) -> Result<(ViewStep, &'a [u8]), Stop>
    requires scoped { Scoped (plain_program program.now) }
    ensures { Gives (λ x. (plain_step x.0, x.1.now)) result (step_at (plain_program program.now) bytes.now) }
{
    if let Some(rest) = behind(bytes, b"drop ") {
        return drop_step(alloc, program, rest);
    }
    if let Some(rest) = behind(bytes, b"copy ") {
        return copy_step(alloc, program, rest);
    }
    if let Some(rest) = behind(bytes, b"unfold ") {
        return unfold(program, rest);
    }
    if let Some(rest) = behind(bytes, b"fold ") {
        return fold_step(alloc, program, rest);
    }
    if let Some(rest) = behind(bytes, b"rename ") {
        return rename(alloc, program, rest);
    }
    more_steps(alloc, program, bytes)
}
