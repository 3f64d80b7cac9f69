//! What the check answers to the scripts of the tables, each a whole derivation of a program that is read from its source.
ghost use Rattle.mz_tree.specs.View.{plain_program};
ghost use Rattle.mz_tree.specs.Scoped.{Scoped};

use declared::A_CELL;
use form::{Held, Line, Source, Step, Table, Want};
use mz_deriv::{DerivFault, Derivation, Scripts, check_derivation};
use mz_tree::{Memory, Place, Program};
use programs::{is_declared, program_of, text};
use scripts::{begun, read, whole};
use sqlite_items::Items;
use std::alloc::Global;
use std::mem;
use std::test::Fail;

mod atoms;
mod calls;
mod declared;
mod forks;
mod form;
mod locks;
mod matches;
mod programs;
mod scripts;
mod sharing;
mod straight;

// the lines of the right scripts with the change of row `at`
fn changed(
    alloc: Global,
    table: &Table,
    at: usize,
    from: usize,
    to: usize,
) -> Result<Items<Line>, Memory> {
    let (_, right, rows) = *table;
    let mut lines = Items::new(alloc);
    for k in 0..right.len() {
        if k < from {
            lines.push(right[k])?;
        }
    }
    let mut inside = true;
    for k in 0..rows.len() {
        if k > at && inside {
            match rows[k] {
                Line::Row(_, _, _, _) => inside = false,
                line => lines.push(line)?,
            }
        }
    }
    for k in 0..right.len() {
        if k >= to {
            lines.push(right[k])?;
        }
    }
    Ok(lines)
}

// the scripts of the common functions
const COMMON: &[Line] = &[
    Line::Next,
    Line::Do,
    Line::Next,
    Line::Do,
    Line::Next,
    Line::Do,
    Line::Next,
    Line::Do,
    Line::Next,
    Line::Do,
    Line::Next,
    Line::Do,
    Line::See(Step::Fold(Held::Block(1, A_CELL, 0, None))),
];

// what stands behind the scripts of the table
fn behind(source: Source, lines: &mut Items<Line>) -> Result<(), Memory> {
    if let Source::Whole(_) = source {
        return Ok(());
    }
    for k in 0..COMMON.len() {
        lines.push(COMMON[k])?;
    }
    if let Source::Beside(_) = source {
        lines.push(Line::Next)?;
        lines.push(Line::Do)?;
    }
    Ok(())
}

// the scripts that stand one after the other in the lines
fn scripts_of(alloc: Global, lines: &[Line]) -> Result<Scripts, Memory> {
    let mut scripts = Items::new(alloc);
    let mut outer = Items::new(alloc);
    let mut now = begun(alloc, 0);
    for k in 0..lines.len() {
        match lines[k] {
            Line::Next => scripts.push(whole(mem::replace(&mut now, begun(alloc, 0))))?,
            line => read(alloc, &mut outer, &mut now, line)?,
        }
    }
    scripts.push(whole(now))?;
    Ok(scripts)
}

// the check's answer to a derivation of a program
fn answer(
    alloc: Global,
    program: &Program,
    derivation: &Derivation,
) -> Option<Result<(), DerivFault>>
    requires { Scoped (plain_program program.now) }
{
    if is_declared(alloc, program) && derivation.scripts.len() == program.funs.len() {
        return Some(check_derivation(alloc, program, derivation));
    }
    None
}

// the answer that a row wants
fn wanted(want: Want) -> Result<(), DerivFault> {
    match want {
        Want::Passes => Ok(()),
        Want::Step(line, col, step) => Err(DerivFault::BadStep {
            place: Place { line, col },
            step,
        }),
        Want::Command(line, col) => Err(DerivFault::BadCommand {
            place: Place { line, col },
        }),
        Want::Join(line, col) => Err(DerivFault::BadJoin {
            place: Place { line, col },
        }),
    }
}

// the first row of the table that isn't answered so
fn first_wrong(alloc: Global, table: &Table) -> Result<Option<&'static str>, Memory> {
    let (source, _, rows) = *table;
    let text = text(alloc, source)?;
    if text.len() > 1_000_000 {
        return Ok(Some("a source is too long"));
    }
    let Some(program) = program_of(alloc, text.as_bytes()) else {
        return Ok(Some("a source is no program"));
    };
    for k in 0..rows.len() {
        if let Line::Row(name, from, to, want) = rows[k] {
            let mut lines = changed(alloc, table, k, from, to)?;
            behind(source, &mut lines)?;
            let scripts = scripts_of(alloc, lines.as_slice())?;
            if answer(alloc, &program, &Derivation { scripts }) != Some(wanted(want)) {
                return Ok(Some(name));
            }
        }
    }
    Ok(None)
}

// how many tables there are
const TABLES: usize = 14;

fn table(number: usize) -> Table {
    match number {
        0 => straight::one_cell(),
        1 => straight::clause(),
        2 => calls::calls(),
        3 => calls::frozen(),
        4 => calls::thread(),
        5 => sharing::adopted(),
        6 => sharing::ring(),
        7 => locks::locked(),
        8 => forks::test(),
        9 => forks::opened(),
        10 => forks::nested(),
        11 => forks::given(),
        12 => matches::shown(),
        _ => matches::known(),
    }
}

// the first row of all tables that isn't answered so
fn first_of_all(alloc: Global) -> Result<Option<&'static str>, Memory> {
    for k in 0..TABLES {
        if let Some(name) = first_wrong(alloc, &table(k))? {
            return Ok(Some(name));
        }
    }
    Ok(None)
}

#[test]
fn derivations_are_judged(rt: HostRuntime) -> Result<(), Fail> {
    assert_eq!(rt; first_of_all(rt.alloc())?, None);
    Ok(())
}
