//! Words: the code of a program, the machine that runs it on shared 64-bit words, and the words themselves.
//!
//! `Code` is what a program is lowered to, and `Words` is what a thread of it steps on: each call is one step on one word
//! and makes one entry of the thread's record. `PlainWords` are words for one schedule, all in one vector. `Report` is what is
//! left of a run: the records, the ends and the words.
//!
//! The machine of one thread is two functions, `ask` and `take_step` (`specs/Steps.antt`): what the thread asks next, and where
//! each answer leads it. `specs/Answers.antt` says which answers an ask may get, and what they do to the words. All else is
//! said of asks and answers, and so of no instruction: a state of all threads with its events (`specs/Raw.antt`), what no
//! thread of a sound run does (`specs/Faults.antt`) and when code is tame (`specs/Tame.antt`), the replay of one thread by its
//! record (`specs/Replays.antt`), the entries that a list of events makes (`specs/Histories.antt`), records that interleave
//! (`specs/Interleavings.antt`), reports of runs (`specs/Ran.antt`), and turns (`specs/Turns.antt`). The laws say that these are
//! one thing: a turn is a list of events, each thread of a run follows its own part of what the run makes, and records that
//! interleave are a run that makes just them. And they say of single instructions that a block is complete, and a thread told to
//! start, only when all that belongs to it was stored.
//!
//! A silent look, an idle one or a failed try, is answered without the words being asked: so the machine has more runs than the
//! words allow, and what is proved of all of them holds of any memory that makes each step at once. A thread is wild exactly where
//! it asks nothing and isn't over: in no state that a run of sound code reaches is there such a thread.
#![tactic(auto)]

mod asks;
mod code;
mod ends;
mod laws;
mod opening;
mod options;
mod plain;
mod reports;
mod stages;
mod words;

pub use asks::{Answer, Ask};
pub use code::{Act, Code, Entries, Instr, Instrs, Start};
pub use ends::End;
pub use laws::{
    blocks_are_stored, parts_follow, records_are_runs, reports_are_runs, runs_interleave,
    runs_keep_tickets, runs_print_their_entries, starts_are_stored, turns_are_events,
};
pub use options::Options;
pub use plain::PlainWords;
pub use reports::{Ends, Numbers, Report, Tapes};
pub use stages::{Stage, Waiting};
pub use words::{Note, Until, Words};
