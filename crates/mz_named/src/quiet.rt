//! Operations that leave the blocks and locks as they are.
ghost use Rattle.std.specs.Prelude.{◌≡◌, ◌++◌, ◌∷◌, [], ℕ, List, IfOk, OnErr, MatchOption, Some};
ghost use Rattle.mz_tree.specs.Code.{Arith_op, Read_op, Print_op};
ghost use Rattle.mz_tree.specs.Arithmetic.{computed};
ghost use Rattle.mz_named.specs.Doing.{Does};
ghost use Rattle.mz_named.specs.declared.config.Cell.{Cell as CodeCell};

use crate::act::Act;
use crate::config::{Cell, Value};
use crate::finding::block_with;
use crate::values::value_of;
use mz_tree::{Arith, Memory};
use sqlite_items::Items;

/// What the operator makes of two numbers, or none where it stops the thread. It takes no memory.
pub fn result_of(operator: Arith, left: u64, right: u64) -> Option<u64>
    ensures { result ≡ computed operator left right }
{
    match operator {
        Arith::Add => left.checked_add(right),
        Arith::Sub => left.checked_sub(right),
        Arith::Mul => left.checked_mul(right),
        Arith::Div => left.checked_div(right),
        Arith::Rem => left.checked_rem(right),
        Arith::Eq => Some((left == right) as u64),
        Arith::Ne => Some((left != right) as u64),
        Arith::Lt => Some((left < right) as u64),
        Arith::Le => Some((left <= right) as u64),
        Arith::Gt => Some((left > right) as u64),
        Arith::Ge => Some((left >= right) as u64),
    }
}

/// Arithmetic on the numbers of two names.
pub fn compute(values: &[Value], operator: Arith, left: u32, right: u32) -> Act
    ensures { (cells : List CodeCell) (prints : List ℕ) → Does cells prints values.now (Arith_op operator left right) result cells prints }
{
    match (value_of(values, left), value_of(values, right)) {
        (Value::Int(a), Value::Int(b)) => match result_of(operator, a, b) {
            Some(number) => Act::Binds(Value::Int(number)),
            None => Act::FailsArith,
        },
        _ => Act::Wrong,
    }
}

/// Prints the number of a name.
pub fn print(prints: &mut Items<u64>, values: &[Value], name: u32) -> Result<Act, Memory>
    ensures does { (cells : List CodeCell) → IfOk result (λ act. Does cells prints.old values.now (Print_op name) act cells prints.new) }
    ensures kept { OnErr result (prints.new ≡ prints.old) }
{
    match value_of(values, name) {
        Value::Int(number) => {
            prints.push(number)?;
            Ok(Act::Binds(Value::Int(0)))
        }
        _ => Ok(Act::Wrong),
    }
}

/// The value of a field of the block of a name.
pub fn read(cells: &Vec<Cell>, values: &[Value], block: u32, con: u32, field: u32) -> Act
    ensures { (prints : List ℕ) → Does cells.now.items prints values.now (Read_op block con field) result cells.now.items prints }
{
    let Some(found) = block_with(cells, values, block, con) else {
        return Act::Wrong;
    };
    match found.fields.get(field as usize) {
        Some(value) => Act::Binds(*value),
        None => Act::Wrong,
    }
}
