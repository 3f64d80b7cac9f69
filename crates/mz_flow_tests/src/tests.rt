//! Each row of the tables: what a command, a branch or an end makes of a state.
ghost use Rattle.mz_decl.specs.View.{plain_decls};
ghost use Rattle.mz_modes.specs.Modes.{AreModes};

use making::{atoms, program, subject, trial};
use mz_decl::{Decls, declarations};
use mz_flow::{RuleFault, branch_state, end_rule, plain_rule, walked, walked_body};
use mz_modes::{Modes, modes};
use mz_perm::State;
use mz_tree::{Alike, Atom, Command, Memory};
use std::alloc::Global;
use std::test::Fail;
use words::{After, Branch, Does, End, Row, Walk};

mod blocks;
mod branches;
mod calls;
mod ends;
mod making;
mod plain;
mod words;

// what is wrong where the tables declare what can't be declared
const DECLARED: &str = "what the tables declare is lawful";

// the command of a branch binds this name
const BOUND: u32 = 20;

// a table of rows of one kind. Commands that have an instance are tried twice more: with each name that stands in the state for their
// own, and with a permission that they don't use, or without the one that they use. Both must leave no instance
#[derive(Clone, Copy)]
enum Table {
    Commands(&'static [Row]),
    Branches(&'static [Branch]),
    Ends(&'static [End]),
}

const PLAIN_TABLES: &[Table] = &[
    Table::Commands(plain::MAKING),
    Table::Commands(plain::NUMBERING),
    Table::Commands(plain::OTHER_KINDS),
    Table::Commands(blocks::READING),
    Table::Commands(blocks::WRITING),
    Table::Commands(blocks::RETAGGING),
];

const CALL_TABLES: &[Table] = &[
    Table::Commands(calls::PASSING),
    Table::Commands(calls::REFUSED),
];

const BRANCH_TABLES: &[Table] = &[
    Table::Branches(branches::TESTS),
    Table::Branches(branches::OPENED),
    Table::Branches(branches::FRESH),
    Table::Branches(branches::KNOWN),
];

const END_TABLES: &[Table] = &[Table::Ends(ends::ENDS)];

// whether both states hold the same permissions in the same order
fn alike(left: &State, right: &State) -> bool {
    let left = left.atoms();
    let right = right.atoms();
    if left.len() != right.len() {
        return false;
    }
    for i in 0..left.len() {
        if !left[i].same(&right[i]) {
            return false;
        }
    }
    true
}

fn is_refused(after: After) -> bool {
    match after {
        After::Refused => true,
        _ => false,
    }
}

// whether the answer is the one of a row that ends so
fn fits(answered: Result<(), RuleFault>, after: After) -> bool {
    match answered {
        Ok(()) => !is_refused(after),
        Err(fault) => is_refused(after) && fault == RuleFault::NoInstance,
    }
}

// whether the branch begins in the state that is wanted, or not at all
fn fits_branch(begun: Result<State, RuleFault>, after: After, wanted: &State) -> bool {
    match begun {
        Ok(state) => !is_refused(after) && alike(&state, wanted),
        Err(fault) => is_refused(after) && fault == RuleFault::NoInstance,
    }
}

// whether the row's command answers and leaves what is wanted
fn is_so(alloc: Global, decls: &Decls, modes: &Modes, row: Row) -> Result<bool, Memory>
    requires { AreModes (plain_decls decls.now) modes.now }
{
    let (_, to, does, uses, before, after) = row;
    let mut trial = trial(alloc, to, does, uses, before, after)?;
    let answered = plain_rule(
        alloc,
        decls,
        modes,
        &mut trial.state,
        &trial.command,
        trial.used.as_ref(),
    );
    Ok(fits(answered, after) && alike(&trial.state, &trial.wanted))
}

// the row whose command binds the name of a permission that is held, and so has no instance
fn bound_again(row: Row, held: usize) -> Row {
    let (name, to, does, uses, before, _) = row;
    let to = match before.get(held) {
        Some(one) => subject(*one),
        None => to,
    };
    (name, to, does, uses, before, After::Refused)
}

// the row whose command names a permission that it doesn't use, or none where it uses one, and so has no instance
fn misnamed(row: Row) -> Row {
    let (name, to, does, uses, before, _) = row;
    let other = match uses {
        Some(_) => None,
        None => before.first().copied(),
    };
    (name, to, does, other, before, After::Refused)
}

// whether the row's command has no instance where it binds one of the names that are held
fn is_new(alloc: Global, decls: &Decls, modes: &Modes, row: Row) -> Result<bool, Memory>
    requires { AreModes (plain_decls decls.now) modes.now }
{
    for i in 0..row.4.len() {
        if !is_so(alloc, decls, modes, bound_again(row, i))? {
            return Ok(false);
        }
    }
    Ok(true)
}

// the first of the commands that isn't so
fn first_command(
    alloc: Global,
    decls: &Decls,
    modes: &Modes,
    rows: &[Row],
) -> Result<Option<&'static str>, Memory>
    requires { AreModes (plain_decls decls.now) modes.now }
{
    for k in 0..rows.len() {
        if !is_so(alloc, decls, modes, rows[k])? {
            return Ok(Some(rows[k].0));
        }
    }
    Ok(None)
}

// the first of the commands that binds a name again
fn first_bound(
    alloc: Global,
    decls: &Decls,
    modes: &Modes,
    rows: &[Row],
) -> Result<Option<&'static str>, Memory>
    requires { AreModes (plain_decls decls.now) modes.now }
{
    for k in 0..rows.len() {
        if !is_refused(rows[k].5) && !is_new(alloc, decls, modes, rows[k])? {
            return Ok(Some(rows[k].0));
        }
    }
    Ok(None)
}

// the first of the commands that follows its rule by another permission
fn first_misnamed(
    alloc: Global,
    decls: &Decls,
    modes: &Modes,
    rows: &[Row],
) -> Result<Option<&'static str>, Memory>
    requires { AreModes (plain_decls decls.now) modes.now }
{
    for k in 0..rows.len() {
        if !is_refused(rows[k].5) && !is_so(alloc, decls, modes, misnamed(rows[k]))? {
            return Ok(Some(rows[k].0));
        }
    }
    Ok(None)
}

// the first of the commands that isn't so, that binds a name again, or that follows its rule by another permission
fn first_row(
    alloc: Global,
    decls: &Decls,
    modes: &Modes,
    rows: &[Row],
) -> Result<Option<&'static str>, Memory>
    requires { AreModes (plain_decls decls.now) modes.now }
{
    if let Some(name) = first_command(alloc, decls, modes, rows)? {
        return Ok(Some(name));
    }
    if let Some(name) = first_bound(alloc, decls, modes, rows)? {
        return Ok(Some(name));
    }
    first_misnamed(alloc, decls, modes, rows)
}

// whether the row's branch begins in the state that is wanted
fn begins(alloc: Global, decls: &Decls, modes: &Modes, row: Branch) -> Result<bool, Memory>
    requires { AreModes (plain_decls decls.now) modes.now }
{
    let (_, does, uses, case, fresh, before, after) = row;
    let trial = trial(alloc, BOUND, does, uses, before, after)?;
    let begun = branch_state(
        alloc,
        decls,
        modes,
        &trial.state,
        &trial.command,
        trial.used.as_ref(),
        case,
        fresh,
    );
    Ok(fits_branch(begun, after, &trial.wanted))
}

// the first of the branches that doesn't
fn first_branch(
    alloc: Global,
    decls: &Decls,
    modes: &Modes,
    rows: &[Branch],
) -> Result<Option<&'static str>, Memory>
    requires { AreModes (plain_decls decls.now) modes.now }
{
    for k in 0..rows.len() {
        if !begins(alloc, decls, modes, rows[k])? {
            return Ok(Some(rows[k].0));
        }
    }
    Ok(None)
}

// whether the row's end answers and leaves what is wanted
fn uses_up(alloc: Global, modes: &Modes, row: End) -> Result<bool, Memory> {
    let (_, owed, before, after) = row;
    let owed = atoms(alloc, owed)?;
    let mut trial = trial(alloc, BOUND, Does::Unit, None, before, after)?;
    let answered = end_rule(alloc, modes, &mut trial.state, &owed);
    Ok(fits(answered, after) && alike(&trial.state, &trial.wanted))
}

// the first of the ends that doesn't
fn first_end(alloc: Global, modes: &Modes, rows: &[End]) -> Result<Option<&'static str>, Memory> {
    for k in 0..rows.len() {
        if !uses_up(alloc, modes, rows[k])? {
            return Ok(Some(rows[k].0));
        }
    }
    Ok(None)
}

// the first row of the table that isn't so
fn first_in(
    alloc: Global,
    decls: &Decls,
    modes: &Modes,
    table: Table,
) -> Result<Option<&'static str>, Memory>
    requires { AreModes (plain_decls decls.now) modes.now }
{
    match table {
        Table::Commands(rows) => first_row(alloc, decls, modes, rows),
        Table::Branches(rows) => first_branch(alloc, decls, modes, rows),
        Table::Ends(rows) => first_end(alloc, modes, rows),
    }
}

// the first row of the tables that isn't so
fn first_of(
    alloc: Global,
    decls: &Decls,
    modes: &Modes,
    tables: &[Table],
) -> Result<Option<&'static str>, Memory>
    requires { AreModes (plain_decls decls.now) modes.now }
{
    for k in 0..tables.len() {
        if let Some(name) = first_in(alloc, decls, modes, tables[k])? {
            return Ok(Some(name));
        }
    }
    Ok(None)
}

// the same in what the tables declare
fn first_wrong(alloc: Global, tables: &[Table]) -> Result<Option<&'static str>, Memory> {
    let program = program(alloc)?;
    match declarations(alloc, &program)? {
        None => Ok(Some(DECLARED)),
        Some(decls) => match modes(alloc, &decls) {
            Err(_) => Ok(Some(DECLARED)),
            Ok(modes) => first_of(alloc, &decls, &modes, tables),
        },
    }
}

// whether the body of this number is walked, by the number that tells it from others
fn is_walked(command: &Command, used: Option<&Atom>, number: u32, told: u32) -> bool {
    match walked_body(command, used, number) {
        Some(body) => body.result == told,
        None => false,
    }
}

// whether just these bodies are walked
fn are_walked(command: &Command, used: Option<&Atom>, numbers: &[u32]) -> bool {
    if walked(command, used) != numbers.len() {
        return false;
    }
    let mut next = 0u32;
    for i in 0..numbers.len() {
        if !is_walked(command, used, next, numbers[i]) {
            return false;
        }
        next = next.saturating_add(1);
    }
    walked_body(command, used, next).is_none()
}

// whether just the row's bodies are walked
fn walks(alloc: Global, row: Walk) -> Result<bool, Memory> {
    let (_, does, uses, numbers) = row;
    let trial = trial(alloc, BOUND, does, uses, &[], After::Refused)?;
    Ok(are_walked(&trial.command, trial.used.as_ref(), numbers))
}

// the first of the commands of which others are walked
fn first_walk(alloc: Global, rows: &[Walk]) -> Result<Option<&'static str>, Memory> {
    for k in 0..rows.len() {
        if !walks(alloc, rows[k])? {
            return Ok(Some(rows[k].0));
        }
    }
    Ok(None)
}

#[test]
fn plain_commands_change_states(rt: HostRuntime) -> Result<(), Fail> {
    let alloc = rt.alloc();
    assert_eq!(rt; first_wrong(alloc, PLAIN_TABLES)?, None);
    Ok(())
}

#[test]
fn calls_change_states(rt: HostRuntime) -> Result<(), Fail> {
    let alloc = rt.alloc();
    assert_eq!(rt; first_wrong(alloc, CALL_TABLES)?, None);
    Ok(())
}

#[test]
fn branches_begin(rt: HostRuntime) -> Result<(), Fail> {
    let alloc = rt.alloc();
    assert_eq!(rt; first_wrong(alloc, BRANCH_TABLES)?, None);
    Ok(())
}

#[test]
fn bodies_are_walked(rt: HostRuntime) -> Result<(), Fail> {
    let alloc = rt.alloc();
    assert_eq!(rt; first_walk(alloc, branches::WALKS)?, None);
    Ok(())
}

#[test]
fn ends_use_up_what_is_owed(rt: HostRuntime) -> Result<(), Fail> {
    let alloc = rt.alloc();
    assert_eq!(rt; first_wrong(alloc, END_TABLES)?, None);
    Ok(())
}
