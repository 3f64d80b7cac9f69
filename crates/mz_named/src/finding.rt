//! What the blocks and locks of names are.
ghost use Rattle.std.specs.Prelude.{◌≡◌, MatchOption, option_map, option_copied};
ghost use Rattle.mz_tree.specs.View.{plain_body, plain_cases};
ghost use Rattle.mz_named.specs.Bodies.{body_for};
ghost use Rattle.mz_named.specs.Finding.{IsFound, HasNoBlockOf, HasNoBlock, HasLock, HasNoLock};
ghost use Rattle.mz_named.specs.View.{env_of, cells_of};

use crate::config::{Cell, Value};
use crate::values::value_of;
use mz_tree::{Body, Case};
use sqlite_items::{Items, at};

/// A block: its name, constructor and adopter, and its fields.
#[derive(Drop)]
pub struct Found<'a> {
    pub name: u32,
    pub con: u32,
    pub adopter: Option<u32>,
    pub fields: &'a Items<Value>,
}

/// The block that the name stands for, if it is one. It takes no memory.
pub fn block_of<'a>(cells: &'a Vec<Cell>, values: &[Value], name: u32) -> Option<Found<'a>>
    ensures { MatchOption result (HasNoBlock (cells_of cells.now.items) (env_of values.now name))
        (λ found. IsFound cells.now.items values.now name found.name found.con found.adopter found.fields.now) }
{
    let Value::Block(name) = value_of(values, name) else {
        return None;
    };
    match at(cells, name as usize) {
        Some(
            Cell::Block {
                con,
                adopter,
                fields,
            },
        ) => Some(Found {
            name,
            con: *con,
            adopter: *adopter,
            fields,
        }),
        _ => None,
    }
}

/// The block that the name stands for, if it is one of this constructor. It takes no memory.
pub fn block_with<'a>(
    cells: &'a Vec<Cell>,
    values: &[Value],
    name: u32,
    con: u32,
) -> Option<Found<'a>>
    ensures { MatchOption result (HasNoBlockOf (cells_of cells.now.items) (env_of values.now name) con)
        (λ found. IsFound cells.now.items values.now name found.name con found.adopter found.fields.now) }
{
    let found = block_of(cells, values, name)?;
    if found.con != con {
        return None;
    }
    Some(found)
}

/// The lock that the name stands for, if it is one: its name, and whether it is held. It takes no memory.
pub fn lock_of(cells: &Vec<Cell>, values: &[Value], name: u32) -> Option<(u32, bool)>
    ensures { MatchOption result (HasNoLock (cells_of cells.now.items) (env_of values.now name))
        (λ found. HasLock (cells_of cells.now.items) (env_of values.now name) found.0 found.1) }
{
    let Value::Block(name) = value_of(values, name) else {
        return None;
    };
    match at(cells, name as usize) {
        Some(Cell::Lock { held }) => Some((name, *held)),
        _ => None,
    }
}

/// The body of the first case of the constructor, if there is one. It takes no memory.
pub fn case_of(cases: &[Case], con: u32) -> Option<&Body>
    ensures { option_map plain_body (option_copied result) ≡ body_for con (plain_cases cases.now) }
{
    for i in 0..cases.len() {
        if cases[i].con == con {
            return Some(&cases[i].body);
        }
    }
    None
}
