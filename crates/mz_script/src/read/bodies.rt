//! Bodies of scripts, line by line from the front of bytes: which lines may stand at a place is told by the program's body,
//! whose commands are gone through at once.
ghost use Rattle.std.specs.Prelude.{◌≡◌, map, option_map};
ghost use Rattle.mz_tree.specs.Code.{cases_of, commands_of};
ghost use Rattle.mz_tree.specs.Scoped.{Scoped};
ghost use Rattle.mz_flow.specs.Walking.{known_con};
ghost use Rattle.mz_tree.specs.View.{plain_atom, plain_atoms, plain_body, plain_cases, plain_commands, plain_op, plain_program};
ghost use Rattle.mz_deriv.specs.Scripts.{script_cases_of};
ghost use Rattle.mz_deriv.specs.View.{plain_item, plain_script_case};
ghost use Rattle.mz_script.specs.Cutting.{lines};
ghost use Rattle.mz_script.specs.Pieces.{Case_line};
ghost use Rattle.mz_script.specs.Places.{cases, has_case, numbered_by, walked_by, walked_of, walks};
ghost use Rattle.mz_script.specs.ReadLines.{piece_of};
ghost use Rattle.mz_script.specs.Reading.{case_at, case_by, cases_by, commands_by, do_at, end_at, join_at, join_by, match_by, op_by, point_by, seen_at};
ghost use Rattle.mz_script.specs.Stops.{Gives};

use crate::read::line::{as_case, as_do, as_join, as_step, is_end};
use crate::read::lines::{count, next};
use crate::read::stop::Stop;
use mz_deriv::{Item, Script, ScriptCase, ScriptCases};
use mz_tree::{Atom, Atoms, Body, Case, Command, Op, Program, Ty};
use sqlite_items::Items;
use std::alloc::Global;

// The next command's line.
fn do_line<'a>(
    alloc: Global,
    program: &Program,
    bytes: &'a [u8],
) -> Result<(Option<Atom>, &'a [u8]), Stop>
    requires scoped { Scoped (plain_program program.now) }
    ensures { Gives (λ x. (option_map plain_atom x.0, lines x.1.now)) result (do_at (piece_of (plain_program program.now)) (lines bytes.now)) }
{
    match next(alloc, program, bytes)? {
        None => Err(Stop::Unexpected(0)),
        Some((line, rest)) => match as_do(line) {
            None => Err(Stop::Unexpected(count(bytes))),
            Some(uses) => Ok((uses, rest)),
        },
    }
}

// The steps up to the next line that is none.
fn steps<'a>(
    alloc: Global,
    program: &Program,
    bytes: &'a [u8],
) -> Result<(Items<Item>, &'a [u8]), Stop>
    requires scoped { Scoped (plain_program program.now) }
    ensures { Gives (λ x. (map plain_item x.0, lines x.1.now)) result (seen_at (piece_of (plain_program program.now)) (lines bytes.now)) }
{
    let mut items = Items::new(alloc);
    let mut rest = bytes;
    for _ in 0..bytes.len() {
        match next(alloc, program, rest)? {
            None => return Ok((items, rest)),
            Some((line, more)) => match as_step(line) {
                None => return Ok((items, rest)),
                Some(step) => {
                    items.push(Item::Step(step))?;
                    rest = more;
                }
            },
        }
    }
    Ok((items, rest))
}

// Whether a case may have this number: it is 0 but where the case has one of its own.
fn fits(numbered: bool, number: u32) -> bool
    ensures { result ≡ cases numbered (Case_line number) }
{
    numbered || number == 0
}

// The line of a case.
fn case_line<'a>(
    alloc: Global,
    program: &Program,
    numbered: bool,
    bytes: &'a [u8],
) -> Result<(u32, &'a [u8]), Stop>
    requires scoped { Scoped (plain_program program.now) }
    ensures { Gives (λ x. (x.0, lines x.1.now)) result (case_at (piece_of (plain_program program.now)) numbered (lines bytes.now)) }
{
    match next(alloc, program, bytes)? {
        None => Err(Stop::Unexpected(0)),
        Some((line, rest)) => match as_case(line) {
            None => Err(Stop::Unexpected(count(bytes))),
            Some(number) => {
                if !fits(numbered, number) {
                    return Err(Stop::Unexpected(count(bytes)));
                }
                Ok((number, rest))
            }
        },
    }
}

// The line that ends the cases.
fn join_line<'a>(
    alloc: Global,
    program: &Program,
    bytes: &'a [u8],
) -> Result<(Atoms, &'a [u8]), Stop>
    requires scoped { Scoped (plain_program program.now) }
    ensures { Gives (λ x. (plain_atoms x.0, lines x.1.now)) result (join_at (piece_of (plain_program program.now)) (lines bytes.now)) }
{
    match next(alloc, program, bytes)? {
        None => Err(Stop::Unexpected(0)),
        Some((line, rest)) => match as_join(line) {
            None => Err(Stop::Unexpected(count(bytes))),
            Some(atoms) => Ok((atoms, rest)),
        },
    }
}

// The line that ends a body.
fn end_line<'a>(alloc: Global, program: &Program, bytes: &'a [u8]) -> Result<&'a [u8], Stop>
    requires scoped { Scoped (plain_program program.now) }
    ensures { Gives (λ x. (tt, lines x.now)) result (end_at (piece_of (plain_program program.now)) (lines bytes.now)) }
{
    match next(alloc, program, bytes)? {
        None => Err(Stop::Unexpected(0)),
        Some((line, rest)) => {
            if !is_end(line) {
                return Err(Stop::Unexpected(count(bytes)));
            }
            Ok(rest)
        }
    }
}

// The constructor that a permission tells, where it is for a block.
fn known_con(uses: &Option<Atom>) -> Option<u32>
    ensures { result ≡ known_con (option_map plain_atom uses.now) }
{
    match uses {
        Some(Atom::Has { name: _, ty }) => match ty {
            Ty::Block { con, .. } => Some(*con),
            _ => None,
        },
        _ => None,
    }
}

// Whether the cases of a match have numbers of their own.
fn numbered(uses: &Option<Atom>) -> bool
    ensures { result ≡ numbered_by (option_map plain_atom uses.now) }
{
    match uses {
        Some(Atom::Has { name: _, ty }) => match ty {
            Ty::Block { .. } => false,
            _ => true,
        },
        _ => true,
    }
}

// Whether there is a case of the constructor.
fn has_case(cases: &[Case], con: u32) -> bool
    ensures { result ≡ has_case con (cases_of (plain_cases cases.now)) }
{
    for i in 0..cases.len() {
        if cases[i].con == con {
            return true;
        }
    }
    false
}

// The constructor whose cases alone have a script, if a permission tells one among them.
fn walked(uses: &Option<Atom>, cases: &[Case]) -> Option<u32>
    ensures { walked_of result ≡ walked_by (option_map plain_atom uses.now) (cases_of (plain_cases cases.now)) }
{
    match known_con(uses) {
        Some(con) => {
            if has_case(cases, con) {
                Some(con)
            } else {
                None
            }
        }
        None => None,
    }
}

// Whether the case of a constructor has a script.
fn has_script(walked: Option<u32>, con: u32) -> bool
    ensures { result ≡ walks (walked_of walked) con }
{
    match walked {
        None => true,
        Some(known) => con == known,
    }
}

// The join behind the cases; where there is none there is no join.
fn maybe_join<'a>(
    alloc: Global,
    program: &Program,
    cases: &[ScriptCase],
    bytes: &'a [u8],
) -> Result<(Atoms, &'a [u8]), Stop>
    requires scoped { Scoped (plain_program program.now) }
    ensures { Gives (λ x. (plain_atoms x.0, lines x.1.now)) result (join_by (piece_of (plain_program program.now)) (script_cases_of (map plain_script_case cases.now)) (lines bytes.now)) }
{
    if cases.len() == 0 {
        return Ok((Items::new(alloc), bytes));
    }
    join_line(alloc, program, bytes)
}

// The scripts of a match.
#[cycle(bodies)]
#[tactic(auto, unfolding(crate::specs::Reading::match_by))]
fn match_cases<'a>(
    alloc: Global,
    program: &Program,
    cases: &[Case],
    uses: &Option<Atom>,
    bytes: &'a [u8],
) -> Result<(ScriptCases, Atoms, &'a [u8]), Stop>
    requires scoped { Scoped (plain_program program.now) }
    ensures { Gives (λ x. ((script_cases_of (map plain_script_case x.0), plain_atoms x.1), lines x.2.now)) result (match_by (piece_of (plain_program program.now)) (option_map plain_atom uses.now) (cases_of (plain_cases cases.now)) (lines bytes.now)) }
{
    let walked = walked(uses, cases);
    let numbered = numbered(uses);
    let (scripts, rest) = some_cases(alloc, program, numbered, walked, cases, bytes)?;
    let (join, rest) = maybe_join(alloc, program, scripts.as_slice(), rest)?;
    Ok((scripts, join, rest))
}

// The scripts of those cases that have one, in order.
#[cycle(bodies)]
#[tactic(auto, unfolding(crate::specs::Reading::commands_by))]
fn some_cases<'a>(
    alloc: Global,
    program: &Program,
    numbered: bool,
    walked: Option<u32>,
    cases: &[Case],
    bytes: &'a [u8],
) -> Result<(ScriptCases, &'a [u8]), Stop>
    requires scoped { Scoped (plain_program program.now) }
    ensures { Gives (λ x. (script_cases_of (map plain_script_case x.0), lines x.1.now)) result (cases_by (piece_of (plain_program program.now)) numbered (walked_of walked) (cases_of (plain_cases cases.now)) (lines bytes.now)) }
{
    let mut scripts = Items::new(alloc);
    let mut rest = bytes;
    for i in 0..cases.len() {
        let branch = &cases[i];
        if has_script(walked, branch.con) {
            let (script, more) = case(alloc, program, numbered, &branch.body, rest)?;
            scripts.push(script)?;
            rest = more;
        }
    }
    Ok((scripts, rest))
}

// What the `do` of an operation brings.
#[cycle(bodies)]
#[tactic(auto, unfolding(crate::specs::Reading::commands_by))]
fn brought<'a>(
    alloc: Global,
    program: &Program,
    op: &Op,
    uses: &Option<Atom>,
    bytes: &'a [u8],
) -> Result<(ScriptCases, Atoms, &'a [u8]), Stop>
    requires scoped { Scoped (plain_program program.now) }
    ensures { Gives (λ x. ((script_cases_of (map plain_script_case x.0), plain_atoms x.1), lines x.2.now)) result (op_by (piece_of (plain_program program.now)) (plain_op op.now) (option_map plain_atom uses.now) (lines bytes.now)) }
{
    match op {
        Op::If { yes, other, .. } => {
            let (first, rest) = case(alloc, program, false, yes, bytes)?;
            let (second, rest) = case(alloc, program, false, other, rest)?;
            let (join, rest) = join_line(alloc, program, rest)?;
            let mut cases = Items::new(alloc);
            cases.push(first)?;
            cases.push(second)?;
            Ok((cases, join, rest))
        }
        Op::Match { cases, .. } => match_cases(alloc, program, cases.as_slice(), uses, bytes),
        _ => Ok((Items::new(alloc), Items::new(alloc), bytes)),
    }
}

// A branch: its case with its number, and its body.
#[cycle(bodies)]
#[tactic(auto, unfolding(crate::specs::Reading::commands_by))]
fn case<'a>(
    alloc: Global,
    program: &Program,
    numbered: bool,
    body: &Body,
    bytes: &'a [u8],
) -> Result<(ScriptCase, &'a [u8]), Stop>
    requires scoped { Scoped (plain_program program.now) }
    ensures { Gives (λ x. (plain_script_case x.0, lines x.1.now)) result (case_by (piece_of (plain_program program.now)) numbered (plain_body body.now) (lines bytes.now)) }
{
    let (fresh, rest) = case_line(alloc, program, numbered, bytes)?;
    let (items, rest) = commands(alloc, program, body.commands.as_slice(), rest)?;
    let body = Script { items };
    Ok((ScriptCase { fresh, body }, rest))
}

// One command: its steps, its `do` and what that brings.
#[cycle(bodies)]
#[tactic(auto, unfolding(crate::specs::Reading::point_by))]
fn point<'a>(
    alloc: Global,
    program: &Program,
    command: &Command,
    bytes: &'a [u8],
) -> Result<(Items<Item>, &'a [u8]), Stop>
    requires scoped { Scoped (plain_program program.now) }
    ensures { Gives (λ x. (map plain_item x.0, lines x.1.now)) result (point_by (piece_of (plain_program program.now)) (plain_op command.now.op) (lines bytes.now)) }
{
    let (mut items, rest) = steps(alloc, program, bytes)?;
    let (uses, rest) = do_line(alloc, program, rest)?;
    let (cases, join, rest) = brought(alloc, program, &command.op, &uses, rest)?;
    items.push(Item::Do { uses, cases, join })?;
    Ok((items, rest))
}

/// Commands and the end of their body.
#[cycle(bodies)]
pub(crate) fn commands<'a>(
    alloc: Global,
    program: &Program,
    commands: &[Command],
    bytes: &'a [u8],
) -> Result<(Items<Item>, &'a [u8]), Stop>
    requires scoped { Scoped (plain_program program.now) }
    ensures { Gives (λ x. (map plain_item x.0, lines x.1.now)) result (commands_by (piece_of (plain_program program.now)) (commands_of (plain_commands commands.now)) (lines bytes.now)) }
{
    let mut items = Items::new(alloc);
    let mut rest = bytes;
    for i in 0..commands.len() {
        let (front, more) = point(alloc, program, &commands[i], rest)?;
        items.append(front)?;
        rest = more;
    }
    let (front, more) = steps(alloc, program, rest)?;
    items.append(front)?;
    let more = end_line(alloc, program, more)?;
    Ok((items, more))
}
