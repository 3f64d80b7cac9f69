//! Operations that change blocks and locks.
ghost use Rattle.std.specs.Prelude.{◌≡◌, ◌+◌, ◌<◌, ◌≤◌, ◌++◌, ◌∷◌, [], ℕ, Bool, List, Option, IfOk, OnErr, MatchOption, Some, None, length, slice_get, slice_set};
ghost use Rattle.mz_tree.specs.Plain.{Atom as PlainAtom};
ghost use Rattle.mz_tree.specs.Code.{New_op, Write_op, Retag_op, Give_op, Take_op, New_lock_op, Acquire_op, Release_op};
ghost use Rattle.mz_named.specs.Doing.{Does};
ghost use Rattle.mz_named.specs.declared.config.Value.{Value as CodeValue};

use crate::act::Act;
use crate::config::{Cell, Value};
use crate::finding::{block_of, block_with, lock_of};
use crate::values::{value_of, values_of};
use mz_tree::Memory;
use std::alloc::Global;

/// A new block of the constructor, with the values of these names as its fields and no adopter.
pub fn make(
    alloc: Global,
    cells: &mut Vec<Cell>,
    values: &[Value],
    con: u32,
    names: &[u32],
) -> Result<Act, Memory>
    requires { length cells.old.items < 4294967295 }
    ensures does { (prints : List ℕ) → IfOk result (λ act. Does cells.old.items prints values.now (New_op con names.now) act cells.new.items prints) }
    ensures kept { OnErr result (cells.new.items ≡ cells.old.items) }
    ensures more { length cells.new.items ≤ length cells.old.items + 1 }
{
    let fields = values_of(alloc, values, names)?;
    let name = add(
        cells,
        Cell::Block {
            con,
            adopter: None,
            fields,
        },
    )?;
    Ok(Act::Binds(Value::Block(name)))
}

/// A new lock, which is free.
pub fn make_lock(cells: &mut Vec<Cell>) -> Result<Act, Memory>
    requires { length cells.old.items < 4294967295 }
    ensures does { (prints : List ℕ) (values : List CodeValue) (guarded : List (PlainAtom ℕ)) → IfOk result (λ act. Does cells.old.items prints values (New_lock_op guarded) act cells.new.items prints) }
    ensures kept { OnErr result (cells.new.items ≡ cells.old.items) }
    ensures more { length cells.new.items ≤ length cells.old.items + 1 }
{
    let name = add(cells, Cell::Lock { held: false })?;
    Ok(Act::Binds(Value::Block(name)))
}

/// The field of the block of a name gets the value of another name.
pub fn write(
    cells: &mut Vec<Cell>,
    values: &[Value],
    block: u32,
    con: u32,
    field: u32,
    from: u32,
) -> Act
    ensures does { (prints : List ℕ) → Does cells.old.items prints values.now (Write_op block con field from) result cells.new.items prints }
    ensures many { length cells.new.items ≡ length cells.old.items }
{
    let Some(found) = block_with(cells, values, block, con) else {
        return Act::Wrong;
    };
    if field as usize >= found.fields.len() {
        return Act::Wrong;
    }
    let name = found.name;
    set_field(cells, name, field, value_of(values, from));
    Act::Binds(Value::Int(0))
}

/// The block of a name gets another constructor.
pub fn retag(cells: &mut Vec<Cell>, values: &[Value], block: u32, old: u32, new: u32) -> Act
    ensures does { (prints : List ℕ) → Does cells.old.items prints values.now (Retag_op block old new) result cells.new.items prints }
    ensures many { length cells.new.items ≡ length cells.old.items }
{
    let Some(found) = block_with(cells, values, block, old) else {
        return Act::Wrong;
    };
    let name = found.name;
    set_con(cells, name, new);
    Act::Binds(Value::Int(0))
}

/// A block that has no adopter gets one.
pub fn give(cells: &mut Vec<Cell>, values: &[Value], block: u32, adopter: u32) -> Act
    ensures does { (prints : List ℕ) → Does cells.old.items prints values.now (Give_op block adopter) result cells.new.items prints }
    ensures many { length cells.new.items ≡ length cells.old.items }
{
    let Some(given) = block_of(cells, values, block) else {
        return Act::Wrong;
    };
    let Some(pool) = block_of(cells, values, adopter) else {
        return Act::Wrong;
    };
    let (name, by) = (given.name, pool.name);
    match given.adopter {
        Some(_) => Act::Wrong,
        None => {
            set_adopter(cells, name, Some(by));
            Act::Binds(Value::Int(0))
        }
    }
}

/// A block that has this adopter loses it; where it hasn't, the thread stops.
pub fn take(cells: &mut Vec<Cell>, values: &[Value], block: u32, adopter: u32) -> Act
    ensures does { (prints : List ℕ) → Does cells.old.items prints values.now (Take_op block adopter) result cells.new.items prints }
    ensures many { length cells.new.items ≡ length cells.old.items }
{
    let Some(taken) = block_of(cells, values, block) else {
        return Act::Wrong;
    };
    let Some(pool) = block_of(cells, values, adopter) else {
        return Act::Wrong;
    };
    let (name, by) = (taken.name, pool.name);
    match taken.adopter {
        Some(holder) => {
            if holder != by {
                return Act::FailsTake;
            }
            set_adopter(cells, name, None);
            Act::Binds(Value::Int(0))
        }
        None => Act::FailsTake,
    }
}

/// A free lock becomes held.
pub fn acquire(cells: &mut Vec<Cell>, values: &[Value], lock: u32) -> Act
    ensures does { (prints : List ℕ) → Does cells.old.items prints values.now (Acquire_op lock) result cells.new.items prints }
    ensures many { length cells.new.items ≡ length cells.old.items }
{
    let Some((name, held)) = lock_of(cells, values, lock) else {
        return Act::Wrong;
    };
    if held {
        return Act::Waits;
    }
    set_held(cells, name, true);
    Act::Binds(Value::Int(0))
}

/// A held lock becomes free.
pub fn release(cells: &mut Vec<Cell>, values: &[Value], lock: u32) -> Act
    ensures does { (prints : List ℕ) → Does cells.old.items prints values.now (Release_op lock) result cells.new.items prints }
    ensures many { length cells.new.items ≡ length cells.old.items }
{
    let Some((name, held)) = lock_of(cells, values, lock) else {
        return Act::Wrong;
    };
    if !held {
        return Act::Wrong;
    }
    set_held(cells, name, false);
    Act::Binds(Value::Int(0))
}

// one cell more, and its name
fn add(cells: &mut Vec<Cell>, cell: Cell) -> Result<u32, Memory>
    requires { length cells.old.items < 4294967295 }
    ensures name { IfOk result (λ name. name ≡ length cells.old.items) }
    ensures added { IfOk result (λ _. cells.new.items ≡ cells.old.items ++ cell ∷ []) }
    ensures kept { OnErr result (cells.new.items ≡ cells.old.items) }
    ensures more { length cells.new.items ≤ length cells.old.items + 1 }
{
    let name = cells.len() as u32;
    match cells.push(cell) {
        Ok(()) => Ok(name),
        Err(_) => Err(Memory),
    }
}

// the field of the block gets the value
fn set_field(cells: &mut Vec<Cell>, name: u32, field: u32, value: Value)
    requires { (con : ℕ) × (adopter : Option ℕ) × (fields : List CodeValue) × (slice_get cells.old.items name ≡ Some (Cell.Block con adopter fields)) × (field < length fields) }
    ensures set { (con : ℕ) (adopter : Option ℕ) (fields : List CodeValue) → slice_get cells.old.items name ≡ Some (Cell.Block con adopter fields) → (cells.new.items ≡ slice_set cells.old.items name (Cell.Block con adopter (slice_set fields field value))) }
    ensures many { length cells.new.items ≡ length cells.old.items }
{
    if let Cell::Block { fields, .. } = &mut cells[name as usize] {
        fields.set(field as usize, value);
    }
}

// the block gets the constructor
fn set_con(cells: &mut Vec<Cell>, name: u32, new: u32)
    requires { (con : ℕ) × (adopter : Option ℕ) × (fields : List CodeValue) × (slice_get cells.old.items name ≡ Some (Cell.Block con adopter fields)) }
    ensures set { (con : ℕ) (adopter : Option ℕ) (fields : List CodeValue) → slice_get cells.old.items name ≡ Some (Cell.Block con adopter fields) → (cells.new.items ≡ slice_set cells.old.items name (Cell.Block new adopter fields)) }
    ensures many { length cells.new.items ≡ length cells.old.items }
{
    if let Cell::Block { con, .. } = &mut cells[name as usize] {
        *con = new;
    }
}

// the block gets the adopter, or none
fn set_adopter(cells: &mut Vec<Cell>, name: u32, new: Option<u32>)
    requires { (con : ℕ) × (adopter : Option ℕ) × (fields : List CodeValue) × (slice_get cells.old.items name ≡ Some (Cell.Block con adopter fields)) }
    ensures set { (con : ℕ) (adopter : Option ℕ) (fields : List CodeValue) → slice_get cells.old.items name ≡ Some (Cell.Block con adopter fields) → (cells.new.items ≡ slice_set cells.old.items name (Cell.Block con new fields)) }
    ensures many { length cells.new.items ≡ length cells.old.items }
{
    if let Cell::Block { adopter, .. } = &mut cells[name as usize] {
        *adopter = new;
    }
}

// the lock becomes held or free
fn set_held(cells: &mut Vec<Cell>, name: u32, new: bool)
    requires { (held : Bool) × (slice_get cells.old.items name ≡ Some (Cell.Lock held)) }
    ensures set { cells.new.items ≡ slice_set cells.old.items name (Cell.Lock new) }
    ensures many { length cells.new.items ≡ length cells.old.items }
{
    if let Cell::Lock { held } = &mut cells[name as usize] {
        *held = new;
    }
}
