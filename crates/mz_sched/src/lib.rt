//! Schedules: threads 0 to 63 have turns in order of number, again and again, until each has its end.
//!
//! What a schedule is, and the report that it gives, stands in `specs/Schedules.antt`. Its turns are those of `mz_words`, in which
//! memory isn't refused, and it goes in rounds, as the sentence above does. A round goes on to thread 63 also where the last
//! thread has ended before, which changes nothing. The law says that code has at most one report for its options.
//!
//! `run_scheduled` runs code so, on plain words. Its report is that of a run: between turns the words and the threads are those of
//! a list of events (`specs/Running.antt`), and each turn goes on with it.
#![tactic(auto)]

mod laws;
mod reporting;
mod schedule;

pub use laws::one_report;
pub use schedule::run_scheduled;
