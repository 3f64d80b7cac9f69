//! A thread on plain words, turn by turn.
ghost use Rattle.std.specs.Prelude.{◌≡◌, ◌<◌, ◌≤◌, OnOk, IfSome, IfOk};
ghost use Rattle.mz_words.specs.Plain.{view_of};
ghost use Rattle.mz_thread_tests.specs.Ready.{IsReady, KeepsView};

use crate::forward::goes_forward;
use mz_thread::{Thread, Turn};
use mz_tree::Memory;
use mz_words::{Code, Options, PlainWords, Words};
use std::alloc::Global;

/// Thread 0 before its first turn, and the words of an opening, or none where the code or a limit isn't lawful.
pub fn open(
    alloc: Global,
    code: &Code,
    options: &Options,
) -> Result<Option<(Thread, PlainWords)>, Memory>
    ensures { IfOk result (λ o. IfSome o (λ p. IsReady code.now options.now p.0 p.1)) }
{
    if options.heap < 1024
        || options.heap > 16777216
        || options.steps > 1000000
        || options.tries == 0
    {
        return Ok(None);
    }
    if !goes_forward(code) {
        return Ok(None);
    }
    let words = PlainWords::start(alloc, options.heap, code.main)?;
    let thread = Thread::start(alloc, 0);
    Ok(Some((thread, words)))
}

/// What another actor stores before a turn. The first turn is number 0.
#[derive(Clone, Copy, Debug, PartialEq, Eq)]
pub struct Store {
    pub turn: u32,
    pub place: u32,
    pub value: u64,
}

// actor 63 makes a store, where it is one before this turn and there is such a word
fn store_one(words: &mut PlainWords, store: Store, turn: u32) -> Result<(), Memory>
    requires { (view_of words.old).actor ≡ 0 }
    ensures { OnOk result (KeepsView words.old words.new) }
{
    if store.turn != turn || store.place >= words.size() {
        return Ok(());
    }
    words.turn_of(63);
    words.reserve(1)?;
    words.store(store.place, store.value);
    words.turn_of(0);
    Ok(())
}

// what is to be stored before this turn
fn store_all(words: &mut PlainWords, stores: &[Store], turn: u32) -> Result<(), Memory>
    requires { (view_of words.old).actor ≡ 0 }
    ensures { OnOk result (KeepsView words.old words.new) }
{
    for i in 0..stores.len() {
        store_one(words, stores[i], turn)?;
    }
    Ok(())
}

// a turn, after which there may be another
fn one_turn(thread: &mut Thread, code: &Code, words: &mut PlainWords, options: &Options) -> Turn
    requires { IsReady code.now options.now thread.old words.old }
    ensures { IsReady code.now options.now thread.new words.new }
{
    thread.turn(code, words, options)
}

/// Makes turns until the thread is over or wild, but at most so many: how the last of them ended, and how many there were.
pub fn run(
    thread: &mut Thread,
    code: &Code,
    words: &mut PlainWords,
    options: &Options,
    stores: &[Store],
    most: u32,
) -> Result<(Turn, u32), Memory>
    requires { IsReady code.now options.now thread.old words.old }
    ensures { OnOk result (IsReady code.now options.now thread.new words.new) }
{
    for turn in 0..most {
        store_all(words, stores, turn)?;
        match one_turn(thread, code, words, options) {
            Turn::Again => {}
            ended => return Ok((ended, turn + 1)),
        }
    }
    Ok((Turn::Again, most))
}
