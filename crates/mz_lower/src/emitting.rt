//! The code of bodies, written to the end of what stands there. Targets are known by size.
ghost use Rattle.std.specs.Prelude.{◌≡◌, ◌++◌, ◌+◌, [], ◌∷◌, length, IfOk, OnOk};
ghost use Rattle.mz_tree.specs.View.{plain_body, plain_op, plain_commands, plain_command, plain_cases, plain_case};
ghost use Rattle.mz_tree.specs.Code.{commands_of, cases_of};
ghost use Rattle.mz_lower.specs.Layout.{lay_body, lay_op, lay_command, lay_commands, lay_cases, lay_branch, cons_in, targets_in, instr, lay_match, size_body, size_cases};
ghost use Rattle.mz_words.specs.declared.code.Act.TheVariants.{New, Call};

use crate::acts::{arith, branch, constant, give, read, retag, spawn, take, write};
use crate::counting::{count_body, plus};
use mz_tree::{Body, Case, Command, Memory, Names, Op, Place};
use mz_words::{Act, Instr, Instrs};
use sqlite_items::Items;
use std::alloc::Global;

// one more instruction
pub(crate) fn put(code: &mut Instrs, place: Place, act: Act) -> Result<(), Memory>
    ensures { OnOk result (code.new ≡ code.old ++ instr place act ∷ []) }
{
    code.push(Instr { place, act })?;
    Ok(())
}

// where the next instruction will stand
fn next_number(code: &Instrs) -> Result<u32, Memory>
    ensures { IfOk result (λ n. n ≡ length code.now) }
{
    match u32::try_from(code.len()) {
        Ok(place) => Ok(place),
        Err(_) => Err(Memory),
    }
}

/// Writes the code of a body.
#[cycle(bodies)]
pub(crate) fn emit_body(alloc: Global, code: &mut Instrs, body: &Body) -> Result<(), Memory>
    ensures { OnOk result (code.new ≡ code.old ++ lay_body (length code.old) (plain_body body.now)) }
{
    emit_commands(alloc, code, body.commands.as_slice())
}

#[cycle(bodies)]
fn emit_commands(alloc: Global, code: &mut Instrs, commands: &[Command]) -> Result<(), Memory>
    ensures { OnOk result (code.new ≡ code.old ++ lay_commands (length code.old) (commands_of (plain_commands commands.now))) }
{
    for i in 0..commands.len() {
        emit_command(alloc, code, &commands[i])?;
    }
    Ok(())
}

#[cycle(bodies)]
fn emit_command(alloc: Global, code: &mut Instrs, command: &Command) -> Result<(), Memory>
    ensures { OnOk result (code.new ≡ code.old ++ lay_command (length code.old) (plain_command command.now)) }
{
    emit_op(alloc, code, command.to, command.place, &command.op)
}

#[cycle(bodies)]
fn emit_op(alloc: Global, code: &mut Instrs, to: u32, place: Place, op: &Op) -> Result<(), Memory>
    ensures { OnOk result (code.new ≡ code.old ++ lay_op (length code.old) to place (plain_op op.now)) }
{
    match op {
        Op::Int(value) => put(code, place, constant(to, *value)),
        Op::Unit => put(code, place, constant(to, 0)),
        Op::Fun(function) => put(code, place, constant(to, *function as u64)),
        Op::Copy(from) => put(code, place, Act::Copy { to, from: *from }),
        Op::Arith { op, left, right } => put(code, place, arith(to, *op, *left, *right)),
        Op::New { con, fields } => emit_new(alloc, code, to, place, *con, fields.as_slice()),
        Op::Read { block, con, field } => put(code, place, read(to, *block, *con, *field)),
        Op::Write {
            block,
            con,
            field,
            from,
        } => put(code, place, write(to, *block, *con, *field, *from)),
        Op::Retag {
            block,
            from,
            to: new,
        } => put(code, place, retag(to, *block, *from, *new)),
        Op::If {
            test,
            yes,
            other,
            ..
        } => {
            let halves = halves_of(code, yes, other)?;
            put(code, place, branch(*test, halves.zero))?;
            emit_branch(alloc, code, to, place, halves.end, yes)?;
            emit_branch(alloc, code, to, place, halves.end, other)
        }
        Op::Match { block, cases, .. } => emit_match(
            alloc,
            code,
            to,
            place,
            *block,
            cases.as_slice(),
        ),
        Op::Call { callee, args } => emit_call(alloc, code, to, place, *callee, args.as_slice()),
        Op::Give { block, adopter } => put(code, place, give(to, *block, *adopter)),
        Op::Take { block, adopter } => put(code, place, take(to, *block, *adopter)),
        Op::NewLock(_) => put(code, place, Act::NewLock { to }),
        Op::Acquire(lock) => put(code, place, Act::Acquire { to, lock: *lock }),
        Op::Release(lock) => put(code, place, Act::Release { to, lock: *lock }),
        Op::Spawn { callee, arg } => put(code, place, spawn(to, *callee, *arg)),
        Op::Print(from) => put(code, place, Act::Print { to, from: *from }),
    }
}

fn emit_new(
    alloc: Global,
    code: &mut Instrs,
    to: u32,
    place: Place,
    con: u32,
    fields: &[u32],
) -> Result<(), Memory>
    ensures { OnOk result (code.new ≡ code.old ++ instr place (New to con fields.now) ∷ []) }
{
    let fields = Items::from_slice(alloc, fields)?;
    put(code, place, Act::New { to, con, fields })
}

fn emit_call(
    alloc: Global,
    code: &mut Instrs,
    to: u32,
    place: Place,
    callee: u32,
    args: &[u32],
) -> Result<(), Memory>
    ensures { OnOk result (code.new ≡ code.old ++ instr place (Call to callee args.now) ∷ []) }
{
    let args = Items::from_slice(alloc, args)?;
    put(code, place, Act::Call { to, callee, args })
}

// where the branches of an if begin and end: where the second one begins, and where the command ends
#[derive(Clone, Copy)]
struct Halves {
    zero: u32,
    end: u32,
}

fn halves_of(code: &Instrs, yes: &Body, other: &Body) -> Result<Halves, Memory>
    ensures zero { IfOk result (λ h. h.zero ≡ length code.now + (size_body (plain_body yes.now) + 3)) }
    ensures end { IfOk result (λ h. h.end ≡ h.zero + (size_body (plain_body other.now) + 2)) }
{
    let zero = plus(next_number(code)?, plus(count_body(yes)?, 3)?)?;
    let end = plus(zero, plus(count_body(other)?, 2)?)?;
    Ok(Halves { zero, end })
}

#[cycle(bodies)]
fn emit_branch(
    alloc: Global,
    code: &mut Instrs,
    to: u32,
    place: Place,
    end: u32,
    body: &Body,
) -> Result<(), Memory>
    ensures { OnOk result (code.new ≡ code.old ++ lay_branch (length code.old) to place end (plain_body body.now)) }
{
    emit_body(alloc, code, body)?;
    put(
        code,
        place,
        Act::Copy {
            to,
            from: body.result,
        },
    )?;
    put(code, place, Act::Jump { target: end })
}

// the constructors of a match's cases, where their branches begin, and where the last one ends
struct Targets {
    cons: Names,
    targets: Names,
    end: u32,
}

fn targets_of(alloc: Global, first: u32, cases: &[Case]) -> Result<Targets, Memory>
    ensures cons { IfOk result (λ t. t.cons ≡ cons_in (cases_of (plain_cases cases.now))) }
    ensures targets { IfOk result (λ t. t.targets ≡ targets_in first (cases_of (plain_cases cases.now))) }
    ensures end { IfOk result (λ t. t.end ≡ first + size_cases (cases_of (plain_cases cases.now))) }
{
    let mut cons = Items::new(alloc);
    let mut targets = Items::new(alloc);
    let mut end = first;
    for i in 0..cases.len() {
        cons.push(cases[i].con)?;
        targets.push(end)?;
        end = plus(end, plus(count_body(&cases[i].body)?, 2)?)?;
    }
    Ok(Targets { cons, targets, end })
}

#[cycle(bodies)]
fn emit_match(
    alloc: Global,
    code: &mut Instrs,
    to: u32,
    place: Place,
    block: u32,
    cases: &[Case],
) -> Result<(), Memory>
    ensures { OnOk result (code.new ≡ code.old ++ lay_match (length code.old) to place block (cases_of (plain_cases cases.now))) }
{
    let first = plus(next_number(code)?, 1)?;
    let Targets { cons, targets, end } = targets_of(alloc, first, cases)?;
    put(
        code,
        place,
        Act::Switch {
            block,
            cons,
            targets,
        },
    )?;
    emit_cases(alloc, code, to, place, end, cases)
}

#[cycle(bodies)]
fn emit_cases(
    alloc: Global,
    code: &mut Instrs,
    to: u32,
    place: Place,
    end: u32,
    cases: &[Case],
) -> Result<(), Memory>
    ensures { OnOk result (code.new ≡ code.old ++ lay_cases (length code.old) to place end (cases_of (plain_cases cases.now))) }
{
    for i in 0..cases.len() {
        emit_branch(alloc, code, to, place, end, &cases[i].body)?;
    }
    Ok(())
}
