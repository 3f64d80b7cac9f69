//! What a running thread is to do next: by its command, or at the end of a body.
ghost use Rattle.std.specs.Prelude.{◌≡◌, ◌+◌, ◌<◌, ◌≤◌, IfOk, OnErr, length, ℕ, List};
ghost use Rattle.mz_tree.specs.Plain.{Atom as PlainAtom};
ghost use Rattle.mz_tree.specs.Code.{If_op, Match_op, Call_op, Spawn_op, cases_of};
ghost use Rattle.mz_tree.specs.View.{plain_op, plain_body, plain_cases, plain_program};
ghost use Rattle.mz_tree.specs.declared.program.Program.{Program as CodeProgram};
ghost use Rattle.mz_tree.specs.Programs.{Program as PlainProgram};
ghost use Rattle.mz_named.specs.Planning.{Plans, IsSimple};
ghost use Rattle.mz_named.specs.declared.config.Cell.{Cell as CodeCell};

use crate::act::Act;
use crate::acting::act;
use crate::bodies::{callee_of, rest_of, start};
use crate::config::{Cell, Frame, Value};
use crate::finding::{block_of, case_of};
use crate::plan::Plan;
use crate::values::{bind, bound, padded, value_of, values_of};
use mz_tree::{Body, Case, Memory, Op, Program};
use sqlite_items::Items;
use std::alloc::Global;

/// What comes of an operation that binds a value at once.
fn go(
    alloc: Global,
    cells: &mut Vec<Cell>,
    prints: &mut Items<u64>,
    values: &[Value],
    to: u32,
    op: &Op,
) -> Result<Plan, Memory>
    requires room { length cells.old.items < 4294967295 }
    requires simple { IsSimple (plain_op op.now) }
    ensures plans { (p : PlainProgram) → IfOk result (λ plan. Plans p cells.old.items prints.old values.now to (plain_op op.now) plan cells.new.items prints.new) }
    ensures cells { OnErr result (cells.new.items ≡ cells.old.items) }
    ensures prints { OnErr result (prints.new ≡ prints.old) }
    ensures more { length cells.new.items ≤ length cells.old.items + 1 }
{
    let mut after = padded(alloc, values, to as usize + 1)?;
    Ok(match act(alloc, cells, prints, values, op)? {
        Act::Binds(value) => {
            bind(&mut after, to, value);
            Plan::Goes(after)
        }
        Act::FailsArith => Plan::FailsArith,
        Act::FailsTake => Plan::FailsTake,
        Act::Waits => Plan::Waits,
        Act::Wrong => Plan::Wrong,
    })
}

/// A number chooses one of two bodies.
fn choose(
    alloc: Global,
    values: &[Value],
    to: u32,
    test: u32,
    yes: &Body,
    other: &Body,
) -> Result<Plan, Memory>
    ensures { (p : PlainProgram) (cells : List CodeCell) (prints : List ℕ) (giving : List (PlainAtom ℕ)) → IfOk result (λ plan. Plans p cells prints values.now to (If_op test (plain_body yes.now) (plain_body other.now) giving) plan cells prints) }
{
    match value_of(values, test) {
        Value::Int(number) => {
            let rest = if number == 0 {
                rest_of(alloc, other)?
            } else {
                rest_of(alloc, yes)?
            };
            Ok(Plan::Branches { to, rest })
        }
        _ => Ok(Plan::Wrong),
    }
}

/// A block chooses the body of the first case of its constructor.
fn select(
    alloc: Global,
    cells: &Vec<Cell>,
    values: &[Value],
    to: u32,
    block: u32,
    cases: &[Case],
) -> Result<Plan, Memory>
    ensures { (p : PlainProgram) (prints : List ℕ) (variety : ℕ) (giving : List (PlainAtom ℕ)) → IfOk result (λ plan. Plans p cells.now.items prints values.now to (Match_op block variety (cases_of (plain_cases cases.now)) giving) plan cells.now.items prints) }
{
    let Some(found) = block_of(cells, values, block) else {
        return Ok(Plan::Wrong);
    };
    match case_of(cases, found.con) {
        Some(body) => Ok(Plan::Branches {
            to,
            rest: rest_of(alloc, body)?,
        }),
        None => Ok(Plan::Wrong),
    }
}

/// A function is called with the values of these names.
fn call(
    alloc: Global,
    program: &Program,
    values: &[Value],
    to: u32,
    callee: u32,
    args: &[u32],
) -> Result<Plan, Memory>
    ensures { (cells : List CodeCell) (prints : List ℕ) → IfOk result (λ plan. Plans (plain_program program.now) cells prints values.now to (Call_op callee args.now) plan cells prints) }
{
    match callee_of(program, value_of(values, callee), args.len()) {
        Some(fun) => {
            let args = values_of(alloc, values, args)?;
            Ok(Plan::Calls {
                to,
                frame: start(alloc, fun, args)?,
            })
        }
        None => Ok(Plan::Wrong),
    }
}

/// A function of one parameter is started in a thread of its own.
fn spawn(
    alloc: Global,
    program: &Program,
    values: &[Value],
    to: u32,
    callee: u32,
    arg: u32,
) -> Result<Plan, Memory>
    ensures { (cells : List CodeCell) (prints : List ℕ) → IfOk result (λ plan. Plans (plain_program program.now) cells prints values.now to (Spawn_op callee arg) plan cells prints) }
{
    match callee_of(program, value_of(values, callee), 1) {
        Some(fun) => {
            let args = values_of(alloc, values, &[arg])?;
            let frame = start(alloc, fun, args)?;
            let values = bound(alloc, values, to, Value::Int(0))?;
            Ok(Plan::Spawns { frame, values })
        }
        None => Ok(Plan::Wrong),
    }
}

/// What comes of the operation of a command that binds the name `to`. Where memory is wanting nothing has changed.
pub fn plan(
    alloc: Global,
    program: &Program,
    cells: &mut Vec<Cell>,
    prints: &mut Items<u64>,
    values: &[Value],
    to: u32,
    op: &Op,
) -> Result<Plan, Memory>
    requires { length cells.old.items < 4294967295 }
    ensures plans { IfOk result (λ plan. Plans (plain_program program.now) cells.old.items prints.old values.now to (plain_op op.now) plan cells.new.items prints.new) }
    ensures cells { OnErr result (cells.new.items ≡ cells.old.items) }
    ensures prints { OnErr result (prints.new ≡ prints.old) }
    ensures more { length cells.new.items ≤ length cells.old.items + 1 }
{
    match op {
        Op::If {
            test,
            yes,
            other,
            ..
        } => choose(alloc, values, to, *test, yes, other),
        Op::Match { block, cases, .. } => {
            select(alloc, cells, values, to, *block, cases.as_slice())
        }
        Op::Call { callee, args } => { call(alloc, program, values, to, *callee, args.as_slice()) }
        Op::Spawn { callee, arg } => spawn(alloc, program, values, to, *callee, *arg),
        _ => go(alloc, cells, prints, values, to, op),
    }
}
