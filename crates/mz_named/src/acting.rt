//! Operations that bind a value at once.
ghost use Rattle.std.specs.Prelude.{◌≡◌, ◌+◌, ◌<◌, ◌≤◌, IfOk, OnErr, length};
ghost use Rattle.mz_tree.specs.View.{plain_op};
ghost use Rattle.mz_named.specs.Doing.{Does};

use crate::act::Act;
use crate::changing::{acquire, give, make, make_lock, release, retag, take, write};
use crate::config::{Cell, Value};
use crate::quiet::{compute, print, read};
use crate::values::value_of;
use mz_tree::{Memory, Op};
use sqlite_items::Items;
use std::alloc::Global;

/// What comes of the operation, where it binds a value at once; any other one is wrong here. Where memory is wanting
/// nothing has changed.
pub fn act(
    alloc: Global,
    cells: &mut Vec<Cell>,
    prints: &mut Items<u64>,
    values: &[Value],
    op: &Op,
) -> Result<Act, Memory>
    requires { length cells.old.items < 4294967295 }
    ensures does { IfOk result (λ act. Does cells.old.items prints.old values.now (plain_op op.now) act cells.new.items prints.new) }
    ensures cells { OnErr result (cells.new.items ≡ cells.old.items) }
    ensures prints { OnErr result (prints.new ≡ prints.old) }
    ensures more { length cells.new.items ≤ length cells.old.items + 1 }
{
    match op {
        Op::Int(number) => Ok(Act::Binds(Value::Int(*number))),
        Op::Unit => Ok(Act::Binds(Value::Int(0))),
        Op::Fun(function) => Ok(Act::Binds(Value::Fun(*function))),
        Op::Copy(name) => Ok(Act::Binds(value_of(values, *name))),
        Op::Arith { op, left, right } => Ok(compute(values, *op, *left, *right)),
        Op::New { con, fields } => make(alloc, cells, values, *con, fields.as_slice()),
        Op::Read { block, con, field } => Ok(read(cells, values, *block, *con, *field)),
        Op::Write {
            block,
            con,
            field,
            from,
        } => Ok(write(cells, values, *block, *con, *field, *from)),
        Op::Retag { block, from, to } => Ok(retag(cells, values, *block, *from, *to)),
        Op::Give { block, adopter } => Ok(give(cells, values, *block, *adopter)),
        Op::Take { block, adopter } => Ok(take(cells, values, *block, *adopter)),
        Op::NewLock(_) => make_lock(cells),
        Op::Acquire(lock) => Ok(acquire(cells, values, *lock)),
        Op::Release(lock) => Ok(release(cells, values, *lock)),
        Op::Print(name) => print(prints, values, *name),
        Op::If { .. } | Op::Match { .. } | Op::Call { .. } | Op::Spawn { .. } => Ok(Act::Wrong),
    }
}
