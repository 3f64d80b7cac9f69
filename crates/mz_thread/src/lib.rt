//! One thread on words: it makes turns, each a list of events by the code of a program.
//!
//! The machine of a thread is a definition of `mz_words`: `ask` says what a thread asks next, and `take_step` where an answer
//! leads it. Here it is code. `Machine::ask` is the one and `Machine::take` the other, function by function, and neither knows
//! the words; `make_step` puts an ask to any words, and knows no instruction. A turn goes round these three.
//!
//! Choices:
//! - What an event does is told by its answer, which is a value: so each clause is an equation, and a turn is a list of answers.
//! - A frame is made before its answer is taken, so that a thread whose memory is refused stands where it stood.
//! - A thread keeps its frames in a vector whose last is the innermost, and the number of their registers beside them: a return
//!   takes a frame and gives its memory back, and a call that would be too deep is told by one sum. No registers are copied.
//! - Room for an entry is made directly before each step of an instruction, for that entry and the one that closes the record;
//!   a thread that hasn't started is given the room of its start and its end.
#![tactic(auto)]

mod answering;
mod asking;
mod events;
mod framing;
mod lookups;
mod machine;
mod taking;
mod thread;
mod turns;

pub use machine::Machine;
pub use thread::{Thread, Turn};
