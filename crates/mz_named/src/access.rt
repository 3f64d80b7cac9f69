//! Which blocks a thread's next command reads and writes.
ghost use Rattle.std.specs.Prelude.{◌≡◌, ◌<◌, ◌++◌, [], IfOk, OnOk, length};
ghost use Rattle.mz_tree.specs.View.{plain_op};
ghost use Rattle.mz_named.specs.Accessing.{name_of, reads_of, writes_of, Accesses};
ghost use Rattle.mz_named.specs.View.{plain_value, env_of, plain_config};

use crate::config::{NamedConfig, Thread, Value};
use crate::values::value_of;
use mz_tree::{Memory, Names, Op, Program};
use sqlite_items::Items;
use std::alloc::Global;

/// The names of the blocks that a command reads, and of those that it writes.
#[derive(Drop)]
pub struct Access {
    pub reads: Names,
    pub writes: Names,
}

/// What the next command of thread number `thread` reads and writes: a read and a match their block; a write, a change of
/// tag, a give of one block to another and a take write theirs, the take its adopter alone. A thread without a next
/// command, as one that has ended, accesses nothing.
pub fn next_access(
    alloc: Global,
    _program: &Program,
    config: &NamedConfig,
    thread: u32,
) -> Result<Access, Memory>
    requires { thread < length (plain_config config.now).threads }
    ensures { IfOk result (λ access. Accesses (plain_config config.now) thread access.reads access.writes) }
{
    match &config.threads[thread as usize] {
        Thread::Running { top, below: _ } => match top.rest.commands.get(top.rest.next) {
            Some(command) => access_of(alloc, top.values.as_slice(), &command.op),
            None => Ok(nothing(alloc)),
        },
        Thread::Ended => Ok(nothing(alloc)),
        Thread::Stopped => Ok(nothing(alloc)),
    }
}

// no name is read or written
fn nothing(alloc: Global) -> Access
    ensures reads { result.reads ≡ [] }
    ensures writes { result.writes ≡ [] }
{
    Access {
        reads: Items::new(alloc),
        writes: Items::new(alloc),
    }
}

// what an operation reads and writes
fn access_of(alloc: Global, values: &[Value], op: &Op) -> Result<Access, Memory>
    ensures { IfOk result (λ access. (access.reads ≡ reads_of (env_of values.now) (plain_op op.now)) × (access.writes ≡ writes_of (env_of values.now) (plain_op op.now))) }
{
    let mut reads = Items::new(alloc);
    let mut writes = Items::new(alloc);
    match op {
        Op::Read { block, .. } => add(&mut reads, value_of(values, *block))?,
        Op::Match { block, .. } => add(&mut reads, value_of(values, *block))?,
        Op::Write { block, .. } => add(&mut writes, value_of(values, *block))?,
        Op::Retag { block, .. } => add(&mut writes, value_of(values, *block))?,
        Op::Give { block, adopter } => {
            add(&mut writes, value_of(values, *block))?;
            add(&mut writes, value_of(values, *adopter))?;
        }
        Op::Take { block: _, adopter } => add(&mut writes, value_of(values, *adopter))?,
        _ => {}
    }
    Ok(Access { reads, writes })
}

// one more name, where the value is one
fn add(names: &mut Names, value: Value) -> Result<(), Memory>
    ensures { OnOk result (names.new ≡ names.old ++ name_of (plain_value value)) }
{
    if let Value::Block(name) = value {
        names.push(name)?;
    }
    Ok(())
}
