//! One step of a thread.
ghost use Rattle.std.specs.Prelude.{◌≡◌, ◌+◌, ◌<◌, ◌≤◌, IfOk, OnErr, MatchOption, length};
ghost use Rattle.mz_tree.specs.View.{plain_program};
ghost use Rattle.mz_named.specs.Answering.{IsOver, Answers};
ghost use Rattle.mz_named.specs.Planning.{Looks};
ghost use Rattle.mz_named.specs.View.{config_of, plain_config};

use crate::config::{Cell, NamedConfig, Thread};
use crate::leaving::leave;
use crate::plan::Plan;
use crate::planning::plan;
use crate::settling::settle;
use crate::turn::NamedTurn;
use mz_tree::{Memory, Program};
use sqlite_items::Items;
use std::alloc::Global;

/// What thread `k` is to do, or none where it has ended or stopped. A command that binds its value at once has acted.
fn look(
    alloc: Global,
    program: &Program,
    cells: &mut Vec<Cell>,
    prints: &mut Items<u64>,
    threads: &Vec<Thread>,
    k: usize,
) -> Result<Option<Plan>, Memory>
    requires within { k < length threads.now.items }
    requires room { length cells.old.items < 4294967295 }
    ensures looks { IfOk result (λ found. MatchOption found
        (IsOver (config_of cells.old.items threads.now.items prints.old) k × (cells.new.items ≡ cells.old.items) × (prints.new ≡ prints.old))
        (λ plan. Looks (plain_program program.now) cells.old.items prints.old threads.now.items k plan cells.new.items prints.new)) }
    ensures cells { OnErr result (cells.new.items ≡ cells.old.items) }
    ensures prints { OnErr result (prints.new ≡ prints.old) }
    ensures more { length cells.new.items ≤ length cells.old.items + 1 }
{
    match &threads[k] {
        Thread::Running { top, below } => match top.rest.commands.get(top.rest.next) {
            Some(command) => {
                let values = top.values.as_slice();
                Ok(Some(plan(
                    alloc,
                    program,
                    cells,
                    prints,
                    values,
                    command.to,
                    &command.op,
                )?))
            }
            None => Ok(Some(leave(alloc, top, below)?)),
        },
        Thread::Ended => Ok(None),
        Thread::Stopped => Ok(None),
    }
}

/// One step of thread `k`. Where memory is wanting nothing has changed.
pub fn step(
    alloc: Global,
    program: &Program,
    cells: &mut Vec<Cell>,
    prints: &mut Items<u64>,
    threads: &mut Vec<Thread>,
    k: usize,
) -> Result<NamedTurn, Memory>
    requires within { k < length threads.old.items }
    requires room { length cells.old.items < 4294967295 }
    ensures answers { IfOk result (λ turn. Answers (plain_program program.now) (config_of cells.old.items threads.old.items prints.old) k turn (config_of cells.new.items threads.new.items prints.new)) }
    ensures cells { length cells.new.items ≤ length cells.old.items + 1 }
    ensures threads { length threads.new.items ≤ length threads.old.items + 1 }
    ensures kept { OnErr result (config_of cells.new.items threads.new.items prints.new ≡ config_of cells.old.items threads.old.items prints.old) }
{
    match look(alloc, program, cells, prints, threads, k)? {
        Some(plan) => settle(alloc, threads, k, plan),
        None => Ok(NamedTurn::Ended),
    }
}

/// One step of thread number `thread`, and what came of it. There are fewer than 4,294,967,295 threads, and as many blocks
/// and locks; a step makes at most one more of each. After `Waits`, `Wrong` and want of memory the configuration is as it
/// was, and so where the thread had ended or stopped before.
pub fn step_named(
    alloc: Global,
    program: &Program,
    config: &mut NamedConfig,
    thread: u32,
) -> Result<NamedTurn, Memory>
    requires thread { thread < length (plain_config config.old).threads }
    requires threads { length (plain_config config.old).threads < 4294967295 }
    requires blocks { (plain_config config.old).heap.limit < 4294967295 }
    ensures answers { IfOk result (λ turn. Answers (plain_program program.now) (plain_config config.old) thread turn (plain_config config.new)) }
    ensures kept { OnErr result (plain_config config.new ≡ plain_config config.old) }
    ensures more_threads { length (plain_config config.new).threads ≤ length (plain_config config.old).threads + 1 }
    ensures more_blocks { (plain_config config.new).heap.limit ≤ (plain_config config.old).heap.limit + 1 }
{
    let cells = &mut config.cells;
    let prints = &mut config.prints;
    step(
        alloc,
        program,
        cells,
        prints,
        &mut config.threads,
        thread as usize,
    )
}
