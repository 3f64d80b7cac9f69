//! Threads that move on.
ghost use Rattle.std.specs.Prelude.{◌≡◌, ◌+◌, ◌<◌, ◌∷◌, [], ◌++◌, List, OnOk, OnErr, length};
ghost use Rattle.mz_named.specs.Moving.{skipped, moved, gone, entered, called, joined, returned};
ghost use Rattle.mz_named.specs.View.{plain_rest, plain_frame, plain_thread, env_of};
ghost use Rattle.mz_named.specs.declared.config.Level.{Level as CodeLevel};
ghost use Rattle.mz_named.specs.declared.config.Frame.{Frame as CodeFrame};
ghost use Rattle.mz_named.specs.declared.config.Suspended.{Suspended as CodeSuspended};

use crate::config::{Frame, Level, Rest, Suspended, Thread, Value};
use mz_tree::Memory;
use sqlite_items::Items;
use std::mem;

/// The thread's next command is made, and the values of its frame are these from then on.
pub fn go_on(thread: &mut Thread, values: Items<Value>)
    requires { (frame : CodeFrame) × (below : _) × (thread.old ≡ Thread.Running frame below) × (frame.rest.next < length frame.rest.commands) }
    ensures { (frame : CodeFrame) (below : _) → thread.old ≡ Thread.Running frame below → plain_thread thread.new ≡ gone frame below.items values }
{
    if let Thread::Running { top, .. } = thread {
        top.values = values;
        skip(&mut top.rest);
    }
}

// the next command is made
fn skip(rest: &mut Rest)
    requires { rest.old.next < length rest.old.commands }
    ensures { rest.new ≡ skipped rest.old }
{
    let _ = rest.commands.len();
    rest.next += 1;
}

/// The thread goes on in a body, whose value gets the name `to`.
pub fn branch(thread: &mut Thread, to: u32, rest: Rest) -> Result<(), Memory>
    requires { (frame : CodeFrame) × (below : _) × (thread.old ≡ Thread.Running frame below) × (frame.rest.next < length frame.rest.commands) }
    ensures gone { (frame : CodeFrame) (below : _) → thread.old ≡ Thread.Running frame below → OnOk result (plain_thread thread.new ≡ entered frame below.items to rest) }
    ensures kept { OnErr result (plain_thread thread.new ≡ plain_thread thread.old) }
{
    if let Thread::Running { top, .. } = thread {
        enter(top, to, rest)?;
    }
    Ok(())
}

// the frame goes on in a body, whose value gets the name `to`
fn enter(frame: &mut Frame, to: u32, rest: Rest) -> Result<(), Memory>
    requires { frame.old.rest.next < length frame.old.rest.commands }
    ensures values { frame.new.values ≡ frame.old.values }
    ensures rest { OnOk result (frame.new.rest ≡ rest) }
    ensures outer { OnOk result (frame.new.outer.items ≡ frame.old.outer.items ++ record { to = to; after = skipped frame.old.rest } ∷ []) }
    ensures kept_rest { OnErr result (frame.new.rest ≡ frame.old.rest) }
    ensures kept_outer { OnErr result (frame.new.outer.items ≡ frame.old.outer.items) }
{
    frame.outer.reserve(1)?;
    let mut after = mem::replace(&mut frame.rest, rest);
    skip(&mut after);
    frame.outer.push_reserved(Level { to, after });
    Ok(())
}

/// The thread leaves a branch, and the values of its frame are these from then on.
pub fn join(thread: &mut Thread, values: Items<Value>)
    requires { (frame : CodeFrame) × (below : _) × (before : List CodeLevel) × (level : CodeLevel) × (thread.old ≡ Thread.Running frame below) × (frame.outer.items ≡ before ++ level ∷ []) }
    ensures { (frame : CodeFrame) (below : _) (before : List CodeLevel) (level : CodeLevel) → thread.old ≡ Thread.Running frame below → frame.outer.items ≡ before ++ level ∷ [] → plain_thread thread.new ≡ joined before level below.items values }
{
    if let Thread::Running { top, .. } = thread {
        leave_branch(top, values);
    }
}

// the frame leaves a branch, and the values are these from then on
fn leave_branch(frame: &mut Frame, values: Items<Value>)
    requires { (before : List CodeLevel) × (level : CodeLevel) × (frame.old.outer.items ≡ before ++ level ∷ []) }
    ensures { (before : List CodeLevel) (level : CodeLevel) → frame.old.outer.items ≡ before ++ level ∷ [] → (frame.new.values ≡ values) × (frame.new.rest ≡ level.after) × (frame.new.outer.items ≡ before) }
{
    match frame.outer.pop() {
        Some(level) => {
            frame.rest = level.after;
            frame.values = values;
        }
        None => unreachable!(),
    }
}

/// The thread goes on in a new frame, whose value gets the name `to`.
pub fn call(thread: &mut Thread, to: u32, frame: Frame) -> Result<(), Memory>
    requires { (top : CodeFrame) × (below : _) × (thread.old ≡ Thread.Running top below) × (top.rest.next < length top.rest.commands) }
    ensures gone { (top : CodeFrame) (below : _) → thread.old ≡ Thread.Running top below → OnOk result (plain_thread thread.new ≡ called top below.items to frame) }
    ensures kept { OnErr result (plain_thread thread.new ≡ plain_thread thread.old) }
{
    if let Thread::Running { top, below } = thread {
        suspend(top, below, to, frame)?;
    }
    Ok(())
}

// the frame waits for a call in another one, whose value gets the name `to`
fn suspend(top: &mut Frame, below: &mut Vec<Suspended>, to: u32, frame: Frame) -> Result<(), Memory>
    requires { top.old.rest.next < length top.old.rest.commands }
    ensures top { OnOk result (top.new ≡ frame) }
    ensures below { OnOk result (below.new.items ≡ below.old.items ++ record { to = to; frame = moved top.old top.old.values } ∷ []) }
    ensures kept_top { OnErr result (top.new ≡ top.old) }
    ensures kept_below { OnErr result (below.new.items ≡ below.old.items) }
{
    below.reserve(1)?;
    let mut waiting = mem::replace(top, frame);
    skip(&mut waiting.rest);
    below.push_reserved(Suspended { to, frame: waiting });
    Ok(())
}

/// The thread returns to the frame that waits for it, whose values are these from then on.
pub fn give_back(thread: &mut Thread, values: Items<Value>)
    requires { (top : CodeFrame) × (below : _) × (before : List CodeSuspended) × (waiting : CodeSuspended) × (thread.old ≡ Thread.Running top below) × (below.items ≡ before ++ waiting ∷ []) }
    ensures { (top : CodeFrame) (below : _) (before : List CodeSuspended) (waiting : CodeSuspended) → thread.old ≡ Thread.Running top below → below.items ≡ before ++ waiting ∷ [] → plain_thread thread.new ≡ returned before waiting values }
{
    if let Thread::Running { top, below } = thread {
        resume(top, below, values);
    }
}

// the innermost frame that waits goes on, and its values are these from then on
fn resume(top: &mut Frame, below: &mut Vec<Suspended>, values: Items<Value>)
    requires { (before : List CodeSuspended) × (waiting : CodeSuspended) × (below.old.items ≡ before ++ waiting ∷ []) }
    ensures { (before : List CodeSuspended) (waiting : CodeSuspended) → below.old.items ≡ before ++ waiting ∷ [] → (top.new ≡ record { values = values; rest = waiting.frame.rest; outer = waiting.frame.outer }) × (below.new.items ≡ before) }
{
    match below.pop() {
        Some(waiting) => {
            *top = waiting.frame;
            top.values = values;
        }
        None => unreachable!(),
    }
}
