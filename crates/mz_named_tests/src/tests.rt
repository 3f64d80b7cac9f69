//! Steps of the programs of the tables: what each answers, what is printed, and what the next command of a thread accesses.
//!
//! A row of a table is a line: a name, a program or its rest behind what all rows of the table have, the turns of its threads with
//! their answers, and what is seen behind them. `0SSE 1W` says that thread 0 makes two steps and ends by the third, and that thread
//! 1 waits then; `T` is a take that fails, `A` arithmetic without a number, and `X` what is wrong.
use mz_named::NamedConfig;
use mz_tree::Program;
use running::{accessed, begin, printed, runs_so, step};
use std::alloc::Global;
use std::test::Fail;
use tables::{
    ACCESSES, COMMANDS, LOCKED, LOCKED_ORDERS, MAIN, NUMBERS, ONE_CELL, PRINTING, PRINTING_ORDERS,
    PROGRAMS, RACES, STEPS, WITH_FUNCTIONS, WRONG,
};
use written::program;

mod running;
mod tables;
mod written;

/// What the last column of a table tells.
#[derive(Clone, Copy, PartialEq, Eq)]
enum Told {
    Prints,
    Accesses,
}

/// Whether a program's turns are answered so from its beginning on, and what is seen behind them is this.
fn is_so(alloc: Global, text: &str, turns: &str, told: Told, wanted: &str) -> Result<bool, Fail> {
    let program = program(alloc, text)?;
    let mut config = begin(alloc, &program)?;
    if !runs_so(alloc, &program, &mut config, turns)? {
        return Ok(false);
    }
    let found = match told {
        Told::Prints => printed(alloc, &config)?,
        Told::Accesses => accessed(alloc, &program, &config)?,
    };
    Ok(found.as_str() == wanted)
}

/// Whether a row is so, behind the front that all programs of the table have.
fn row_is_so(alloc: Global, front: &str, row: &str, told: Told) -> Result<bool, Fail> {
    let columns: Vec<&str> = row.split('|').collect(alloc)?;
    let text = columns.get(1).ok_or("a row has no program")?;
    let turns = columns.get(2).ok_or("a row has no turns")?;
    let wanted = columns.get(3).ok_or("a row has no end")?;
    let whole = format!(in alloc; "{front}{text}")?;
    is_so(alloc, &whole, turns, told, wanted.trim())
}

/// The first of a table's rows that isn't so, or an empty text.
fn wrong_row(alloc: Global, front: &str, table: &str, told: Told) -> Result<String, Fail> {
    for row in table.lines() {
        if !row_is_so(alloc, front, row, told)? {
            return Ok(String::from_str(alloc, row)?);
        }
    }
    Ok(String::new(alloc))
}

#[test]
fn programs_run(rt: HostRuntime) -> Result<(), Fail> {
    let wrong = wrong_row(rt.alloc(), "", PROGRAMS, Told::Prints)?;
    assert_eq!(rt; wrong.as_str(), "");
    Ok(())
}

#[test]
fn commands_act_or_have_no_step(rt: HostRuntime) -> Result<(), Fail> {
    let wrong = wrong_row(rt.alloc(), WITH_FUNCTIONS, COMMANDS, Told::Prints)?;
    assert_eq!(rt; wrong.as_str(), "");
    Ok(())
}

#[test]
fn numbers_end_at_both_ends(rt: HostRuntime) -> Result<(), Fail> {
    let wrong = wrong_row(rt.alloc(), MAIN, NUMBERS, Told::Prints)?;
    assert_eq!(rt; wrong.as_str(), "");
    Ok(())
}

#[test]
fn commands_access_blocks(rt: HostRuntime) -> Result<(), Fail> {
    let wrong = wrong_row(rt.alloc(), WITH_FUNCTIONS, ACCESSES, Told::Accesses)?;
    assert_eq!(rt; wrong.as_str(), "");
    Ok(())
}

#[test]
fn threads_take_turns_at_a_lock(rt: HostRuntime) -> Result<(), Fail> {
    let wrong = wrong_row(rt.alloc(), LOCKED, LOCKED_ORDERS, Told::Prints)?;
    assert_eq!(rt; wrong.as_str(), "");
    Ok(())
}

#[test]
fn threads_print_in_the_order_of_their_turns(rt: HostRuntime) -> Result<(), Fail> {
    let wrong = wrong_row(rt.alloc(), PRINTING, PRINTING_ORDERS, Told::Prints)?;
    assert_eq!(rt; wrong.as_str(), "");
    Ok(())
}

#[test]
fn refused_programs_go_wrong(rt: HostRuntime) -> Result<(), Fail> {
    let wrong = wrong_row(rt.alloc(), "", WRONG, Told::Prints)?;
    assert_eq!(rt; wrong.as_str(), "");
    Ok(())
}

#[test]
fn refused_programs_race(rt: HostRuntime) -> Result<(), Fail> {
    let wrong = wrong_row(rt.alloc(), "", RACES, Told::Accesses)?;
    assert_eq!(rt; wrong.as_str(), "");
    Ok(())
}

/// The accesses, the number of blocks and the answer of one step of thread 0, a line for each step until there are so many.
fn steps_told(alloc: Global, text: &str, count: u32) -> Result<String, Fail> {
    let program = program(alloc, text)?;
    let mut config = begin(alloc, &program)?;
    let mut told = String::new(alloc);
    for _ in 0..count {
        let accesses = accessed(alloc, &program, &config)?;
        let blocks = config.blocks();
        let answer = step(alloc, &program, &mut config, 0)?;
        told.push_str(&format!(in alloc; "{accesses}, {blocks} blocks: {answer:?}\n")?)?;
    }
    Ok(told)
}

#[test]
fn one_cell_is_stepped_through(rt: HostRuntime) -> Result<(), Fail> {
    let told = steps_told(rt.alloc(), ONE_CELL, 10)?;
    assert_eq!(rt; told.as_str(), STEPS);
    Ok(())
}

/// Steps of thread 0 and thread 1 by the bits of a number, the lowest first, where 1 is thread 1.
fn by_bits(
    alloc: Global,
    program: &Program,
    config: &mut NamedConfig,
    bits: u32,
    count: u32,
) -> Result<(), Fail> {
    let mut left = bits;
    for _ in 0..count {
        step(alloc, program, config, left % 2)?;
        left /= 2;
    }
    Ok(())
}

/// What the two threads of `LOCKED` print whose first turns are in this order.
fn printed_in_order(alloc: Global, program: &Program, order: u32) -> Result<String, Fail> {
    let mut config = begin(alloc, program)?;
    runs_so(alloc, program, &mut config, "0SSSS 1S")?;
    by_bits(alloc, program, &mut config, order, 8)?;
    by_bits(alloc, program, &mut config, 0b1010_1010_1010_1010, 16)?;
    printed(alloc, &config)
}

/// In each of the 256 orders of eight turns the thread that has the first turn gets the lock and prints before the other one.
#[test]
fn who_acquires_first_prints_first(rt: HostRuntime) -> Result<(), Fail> {
    let alloc = rt.alloc();
    let program = program(alloc, LOCKED)?;
    for order in 0..256 {
        let wanted = if order % 2 == 0 { "[1, 2]" } else { "[2, 1]" };
        let found = printed_in_order(alloc, &program, order)?;
        assert_eq!(rt; found.as_str(), wanted, "order {order}");
    }
    Ok(())
}
