//! Names in scope: which number a name stands for, where the earliest of equal names counts.
//!
//! A `Scope` is in contracts the list of its names with their numbers, in the order in which they came; `specs/Names.antt`
//! says what a name stands for. A look-up, one more name and a copy each take time that depends on the name alone and not
//! on how many names there are, so that a block of a program may have a copy of its own.
//!
//! For that the names stand in a tree of forks, one fork for a bit of a name, whose parts are shared: a copy has the same
//! tree, and one more name makes the forks on its way anew. `specs/Trees.antt` says what a tree has for a name. That asks of
//! the bits no more than that equal names have equal ones: names whose first 64 bytes are alike stand one behind the other.
//!
//! A `FieldList` is such names with their numbers that can be gone over in order, too.
#![tactic(auto)]

mod chain;
mod field_list;
mod scope;
mod tree;

pub use field_list::FieldList;
pub use scope::Scope;
