//! One schedule: the threads have turns on plain words, in order of number, round after round.
//!
//! What holds between turns is one record (`specs/Running.antt`): the words and the threads are those of a run, and each thread
//! may have its next turn. A round has no case of its own for a thread that has its end, since a turn leaves it as it is.
ghost use Rattle.std.specs.Prelude.{◌≡◌, ◌+◌, ◌<◌, ◌≤◌, IfOk, length, true, false};
ghost use Rattle.mz_words.specs.Limits.{AreWithinLimits};
ghost use Rattle.mz_words.specs.Ran.{Ran};
ghost use Rattle.mz_words.specs.Tame.{Tame};
ghost use Rattle.mz_print.specs.Prints.{TicketsAreInOrder};
ghost use Rattle.mz_sched.specs.Running.{IsRunnable, IsOverAt, Running, AllOver, AreFresh, HasRefusal, InRound, AfterRounds, state_of};
ghost use Rattle.mz_sched.specs.Schedules.{State, Round, Begins, MemorySufficed, Sched};

use crate::reporting::{ends_of, lost_of};
use mz_thread::Thread;
use mz_tree::Memory;
use mz_words::{Code, Options, PlainWords, Report};
use std::alloc::Global;

/// The 64 threads, none of which has started.
#[tactic(auto, using(crate::proofs::Fresh::one_more))]
fn fresh_threads(alloc: Global) -> Result<Vec<Thread>, Memory>
    ensures { IfOk result (λ v. AreFresh v.items) }
{
    let mut threads = Vec::new(alloc);
    for k in 0..64u32 {
        if threads.push(Thread::start(alloc, k)).is_err() {
            return Err(Memory);
        }
    }
    Ok(threads)
}

/// Whether thread k has its end.
fn is_over(threads: &[Thread], k: u32) -> bool
    requires { k < length threads.now }
    ensures over { result ≡ true → IsOverAt threads.now k }
    ensures going { result ≡ false → IsOverAt threads.now k → ⊥ }
{
    threads[k as usize].end().is_some()
}

/// Thread k has a turn, unless it has its end.
fn have_turn(code: &Code, options: &Options, words: &mut PlainWords, threads: &mut [Thread], k: u32)
    requires runnable { IsRunnable code.now options.now }
    requires running { Running code.now options.now words.old threads.old }
    requires number { k < 64 }
    ensures running { Running code.now options.now words.new threads.new }
    ensures goes { (first : State) → Round code.now options.now first k (state_of words.old threads.old) → InRound code.now options.now first (k + 1) words.new threads.new }
    ensures refusal { HasRefusal threads.old → HasRefusal threads.new }
{
    if is_over(threads, k) {
        return;
    }
    words.turn_of(k);
    threads[k as usize].turn(code, words, options);
}

/// Each thread has a turn, unless it has its end.
fn have_round(code: &Code, options: &Options, words: &mut PlainWords, threads: &mut [Thread])
    requires runnable { IsRunnable code.now options.now }
    requires running { Running code.now options.now words.old threads.old }
    ensures running { Running code.now options.now words.new threads.new }
    ensures goes { (first : State) → AfterRounds code.now options.now first words.old threads.old → AfterRounds code.now options.now first words.new threads.new }
{
    for k in 0..64u32 {
        have_turn(code, options, words, threads, k);
    }
}

/// Whether each thread has its end.
fn are_over(threads: &[Thread]) -> bool
    ensures { result ≡ true → AllOver threads.now }
{
    for thread in threads.iter() {
        if thread.end().is_none() {
            return false;
        }
    }
    true
}

/// Rounds, until each thread has its end. More of them than a count of 64 bits has room for count as want of memory.
fn have_rounds(
    code: &Code,
    options: &Options,
    words: &mut PlainWords,
    threads: &mut [Thread],
) -> Result<(), Memory>
    requires runnable { IsRunnable code.now options.now }
    requires running { Running code.now options.now words.old threads.old }
    ensures running { Running code.now options.now words.new threads.new }
    ensures goes { AfterRounds code.now options.now (state_of words.old threads.old) words.new threads.new }
    ensures over { IfOk result (λ _. AllOver threads.new) }
{
    for _round in 0..18446744073709551615u64 {
        have_round(code, options, words, threads);
        if are_over(threads) {
            return Ok(());
        }
    }
    Err(Memory)
}

/// Rounds, and then the report.
fn run_to_end(
    alloc: Global,
    code: &Code,
    options: &Options,
    mut words: PlainWords,
    threads: &mut [Thread],
) -> Result<Report, Memory>
    requires runnable { IsRunnable code.now options.now }
    requires running { Running code.now options.now words threads.old }
    ensures ran { IfOk result (λ r. Ran code.now options.now r) }
    ensures tickets { IfOk result (λ r. TicketsAreInOrder r) }
    ensures scheduled { IfOk result (λ r. MemorySufficed r → Begins code.now options.now (state_of words threads.old) → Sched code.now options.now r) }
{
    have_rounds(code, options, &mut words, threads)?;
    let ends = ends_of(alloc, threads)?;
    let lost = lost_of(alloc, threads)?;
    let (numbers, parts) = words.close();
    Ok(Report {
        parts,
        ends,
        lost,
        words: numbers,
    })
}

/// Runs tame code by one schedule: threads 0 to 63 have turns in order of number, again and again, until each has its end.
///
/// The report is that of a run: each record follows the code to its end, and the records interleave from the words of the opening
/// to those of the report. The tickets of its prints are the numbers from 0 on, each drawn once. Where no thread ended for want of memory it is the one report of the schedule. `Memory` is the only
/// error: there is no memory for the words, for the threads or for the report.
#[tactic(auto, using(crate::proofs::Runnable::runnable))]
pub fn run_scheduled(alloc: Global, code: &Code, options: &Options) -> Result<Report, Memory>
    requires tame { Tame code.now }
    requires limits { AreWithinLimits options.now }
    ensures ran { IfOk result (λ r. Ran code.now options.now r) }
    ensures tickets { IfOk result (λ r. TicketsAreInOrder r) }
    ensures scheduled { IfOk result (λ r. MemorySufficed r → Sched code.now options.now r) }
{
    let words = PlainWords::start(alloc, options.heap, code.main)?;
    let mut threads = fresh_threads(alloc)?;
    run_to_end(alloc, code, options, words, threads.as_mut_slice())
}
