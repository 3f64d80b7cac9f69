//! The text of a derivation.
//!
//! A derivation is written line by line, in decimal numbers and by the names of the program: `specs/Words.antt` has how names, types
//! and permissions are spelled, `specs/Lines.antt` each line and what it may name, `specs/Pieces.antt` which lines stand in which
//! order, and `specs/Texts.antt` the whole text, and which line is the first that no script has there. Nothing in these speaks of
//! how a text is read.
//!
//! `read_script` gives the derivation of which bytes are the text, and else tells the first line that no script has there: Ok
//! just where they are a text, and the line just where it is the first wrong one, for each program that was read and but for
//! want of memory.
//!
//! Laws: a derivation has one text, a text is that of one derivation, and the derivations that have a text are those in the
//! form of a script.
//!
//! Choices: the text is a function of a derivation's items, and of the program for names alone. What a line says
//! (`specs/ReadLines.antt`) is a function of its bytes, so that a script is read by lines as tokens, by the readers of
//! `mz_grammar`; each place asks for a kind of line (`specs/Places.antt`, `specs/Reading.antt`). That a program was read gives that
//! its names stand for one thing alone, and that each match has a case. The code cuts a line from the bytes, asks what it says, and
//! looks whether such a line is wanted; it goes through the program's commands at once, so that no line is kept. A place is
//! told by how many lines are left, which are counted where a text is refused and not before.
#![tactic(auto)]

mod fault;
mod laws;
mod print;
mod read;

pub use fault::ScriptFault;
pub use laws::{at_most_one_derivation, at_most_one_text, spelled_has_text};
pub use print::print_script;
pub use read::read_script;
