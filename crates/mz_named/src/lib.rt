//! The named machine: the meaning of a program by small steps, over blocks and locks that have names and no addresses.
//!
//! `NamedConfig` is a configuration: blocks and locks, threads with frames, and what was printed. `NamedConfig::opening` is
//! that in which a program begins, `step_named` makes one step of a thread or says why there is none, and `next_access`
//! tells which blocks the next command of a thread reads and writes. `specs/Configurations.antt` has configurations,
//! `specs/Operations.antt` what each operation does, `specs/Steps.antt` the eight kinds of step, and `specs/Safety.antt`
//! what is wrong, what is a race, and which programs are safe. `specs/Answering.antt` says what each answer of a step means.
//! A call of a step first makes all that is new, as far as that wants memory, and puts it in place last: so want of memory
//! leaves the configuration as it was. A new block takes the next number as its name, one of the names that the relation
//! allows; a frame keeps a copy of the commands of its body.
#![tactic(auto)]

mod access;
mod act;
mod acting;
mod bodies;
mod changing;
mod config;
mod finding;
mod laws;
mod leaving;
mod opening;
mod plan;
mod planning;
mod quiet;
mod settling;
mod step;
mod threads;
mod turn;
mod values;

pub use access::{Access, next_access};
pub use config::NamedConfig;
pub use laws::{accesses_are_counted, at_most_one_answer, leads_to_one};
pub use step::step_named;
pub use turn::NamedTurn;
