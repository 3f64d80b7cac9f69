//! Types and permissions (atoms) as they are written: their tree, their grammar, and the functions that read them.
//!
//! It stands on `specs/Grammar.antt`, which says in relations, one line for each alternative, which tokens spell which tree.
//! The promise of `read_type`, `read_atom` and `read_atoms` is that they read a front of the tokens exactly by it: what they
//! give is spelled by the tokens taken and can't go on, what a front spells within the limit of brackets is given, and a
//! refusal names the first token that can't stand there, or the first bracket that is one too many (`specs/Fronts.antt`).
//! Five laws add that the readers on lists (`specs/Reading.antt`), by which a parser of more than types states what these
//! calls give, read the grammar; that each tree's tokens are read as it; that tokens have at most one tree; that a front of them
//! spells one or they have a fault; and that the grammar holds itself.
//!
//! Design choices: types and atoms hold each other, and a parser of programs calls both from everywhere, so they are a
//! crate of their own. The leaves of the tree are tokens, from which names and places are taken. How many brackets may be
//! opened is handed down, so that types can be read inside the brackets of others; all loops take a token a round. Where a
//! value is called `result`, a flag lets the key stand for a name; it is handed down into locks and into nothing else.
//! `words` reads single tokens, for parsers that go on from here.
#![tactic(auto)]

mod fronts;
mod laws;
mod read;
mod stop;
mod tree;
pub mod words;

pub use fronts::{read_atom, read_atoms, read_type};
pub use laws::{
    at_most_one_tree, front_or_fault, grammar_holds_itself, grammar_is_read, trees_are_read,
};
pub use stop::Stop;
pub use tree::{FieldName, SurfaceAtom, SurfaceType};
