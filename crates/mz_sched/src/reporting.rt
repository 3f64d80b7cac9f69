//! The report of threads that have their ends.
ghost use Rattle.std.specs.Prelude.{◌≡◌, IfOk};
ghost use Rattle.mz_sched.specs.Running.{AllOver, EndsOf, LostOf};

use mz_thread::Thread;
use mz_tree::Memory;
use mz_words::{End, Ends, Numbers};
use sqlite_items::Items;
use std::alloc::Global;

/// The ends of threads, each of which has one.
pub fn ends_of(alloc: Global, threads: &[Thread]) -> Result<Ends, Memory>
    requires { AllOver threads.now }
    ensures { IfOk result (λ ends. EndsOf threads.now ends) }
{
    let mut ends = Vec::new(alloc);
    for thread in threads.iter() {
        let end = match thread.end() {
            Some(end) => end,
            None => return Err(Memory),
        };
        if ends.push(end).is_err() {
            return Err(Memory);
        }
    }
    Ok(Items::from_vec(ends))
}

/// How many tries of each thread had failed.
pub fn lost_of(alloc: Global, threads: &[Thread]) -> Result<Numbers, Memory>
    ensures { IfOk result (λ lost. LostOf threads.now lost) }
{
    let mut lost = Vec::new(alloc);
    for thread in threads.iter() {
        if lost.push(thread.lost()).is_err() {
            return Err(Memory);
        }
    }
    Ok(Items::from_vec(lost))
}
