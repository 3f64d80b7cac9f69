//! What is read is scoped: the numbers of a program that was read are in range, its names are bound and numbered in order,
//! its shapes fit and its limits are kept.
//!
//! `specs/Scoped.antt` says so of a program, in words of the flat program alone, and the law of this crate says it of each
//! text that reads. Later parts of the checker ask it of a program.
//!
//! The proof stands on three things. The grammar, the tokens and the limit of brackets make the tree of a source a proper
//! one (`proofs/Proper.antt`). The names of the top level stand for what the program declares (`proofs/Grounds.antt`). And
//! of each part of a source without faults it follows what it comes to, where parts are put together as in
//! `proofs/Goes.antt`.
#![tactic(auto)]

mod laws;

pub use laws::what_reads_is_scoped;
