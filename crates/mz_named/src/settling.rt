//! What becomes of the threads by what one of them is to do.
ghost use Rattle.std.specs.Prelude.{◌≡◌, ◌+◌, ◌<◌, ◌≤◌, ◌∷◌, [], ◌++◌, IfOk, OnErr, Some, length, map, slice_get};
ghost use Rattle.mz_named.specs.Configurations.{Running as RunningThread};
ghost use Rattle.mz_named.specs.Moving.{Suits, Turns, Settles};
ghost use Rattle.mz_named.specs.Planning.{WantsMemory};
ghost use Rattle.mz_named.specs.View.{plain_frame, plain_thread};
ghost use Rattle.mz_named.specs.declared.config.Frame.{Frame as CodeFrame};
ghost use Rattle.mz_named.specs.declared.config.Thread.{Thread as CodeThread};

use crate::config::{Frame, Thread};
use crate::plan::Plan;
use crate::threads::{branch, call, give_back, go_on, join};
use crate::turn::NamedTurn;
use mz_tree::Memory;
use std::alloc::Global;

/// Thread `k`, which runs, does what it is to do. Where memory is wanting all threads are as they were.
pub fn settle(
    alloc: Global,
    threads: &mut Vec<Thread>,
    k: usize,
    plan: Plan,
) -> Result<NamedTurn, Memory>
    requires within { k < length threads.old.items }
    requires suits { (frame : CodeFrame) × (below : _) × (slice_get threads.old.items k ≡ Some (Thread.Running frame below)) × Suits frame below.items plan }
    ensures settles { (frame : CodeFrame) (below : _) → slice_get threads.old.items k ≡ Some (Thread.Running frame below) → IfOk result (λ answer. Settles threads.old.items k frame below.items plan answer threads.new.items) }
    ensures wants { OnErr result (WantsMemory plan) }
    ensures kept { OnErr result (map plain_thread threads.new.items ≡ map plain_thread threads.old.items) }
    ensures more { length threads.new.items ≤ length threads.old.items + 1 }
{
    match plan {
        Plan::Spawns { frame, values } => {
            begin(alloc, threads, frame)?;
            go_on(&mut threads[k], values);
            Ok(NamedTurn::Stepped)
        }
        plan => turn(&mut threads[k], plan),
    }
}

// the thread, which runs, does what it is to do, but for starting another one
fn turn(thread: &mut Thread, plan: Plan) -> Result<NamedTurn, Memory>
    requires { (frame : CodeFrame) × (below : _) × (thread.old ≡ Thread.Running frame below) × Suits frame below.items plan }
    ensures turns { (frame : CodeFrame) (below : _) → thread.old ≡ Thread.Running frame below → IfOk result (λ answer. Turns frame below.items plan answer (plain_thread thread.new)) }
    ensures wants { OnErr result (WantsMemory plan) }
    ensures kept { OnErr result (plain_thread thread.new ≡ plain_thread thread.old) }
{
    match plan {
        Plan::Goes(values) => {
            go_on(thread, values);
            Ok(NamedTurn::Stepped)
        }
        Plan::Spawns {
            frame: _frame,
            values,
        } => {
            go_on(thread, values);
            Ok(NamedTurn::Stepped)
        }
        Plan::FailsArith => {
            *thread = Thread::Stopped;
            Ok(NamedTurn::Arith)
        }
        Plan::FailsTake => {
            *thread = Thread::Stopped;
            Ok(NamedTurn::TakeFailed)
        }
        Plan::Branches { to, rest } => {
            branch(thread, to, rest)?;
            Ok(NamedTurn::Stepped)
        }
        Plan::Calls { to, frame } => {
            call(thread, to, frame)?;
            Ok(NamedTurn::Stepped)
        }
        Plan::Joins(values) => {
            join(thread, values);
            Ok(NamedTurn::Stepped)
        }
        Plan::Returns(values) => {
            give_back(thread, values);
            Ok(NamedTurn::Stepped)
        }
        Plan::Ends => {
            *thread = Thread::Ended;
            Ok(NamedTurn::Ended)
        }
        Plan::Waits => Ok(NamedTurn::Waits),
        Plan::Wrong => Ok(NamedTurn::Wrong),
    }
}

// one more thread, in this frame
fn begin(alloc: Global, threads: &mut Vec<Thread>, frame: Frame) -> Result<(), Memory>
    ensures begun { IfOk result (λ _. (started : CodeThread) × (threads.new.items ≡ threads.old.items ++ started ∷ []) × (plain_thread started ≡ RunningThread (plain_frame frame) [])) }
    ensures kept { OnErr result (threads.new.items ≡ threads.old.items) }
    ensures more { length threads.new.items ≤ length threads.old.items + 1 }
{
    let thread = Thread::Running {
        top: frame,
        below: Vec::new(alloc),
    };
    match threads.push(thread) {
        Ok(()) => Ok(()),
        Err(_) => Err(Memory),
    }
}
