//! Indexed states: the permissions that are held at a place, in order, to be found by the class of a name.
//!
//! Whoever looks for a permission asks for the first one, at or behind a place, of a name that equations join to this
//! one and at a type that passes a test. The value of an `Indexed` in contracts is its list of plain permissions, as that
//! of a `State` is, and the clauses speak of that list alone, so that they stay as they are where another index stands
//! behind them. For now the permissions stand in a plain list: each question labels the names anew and goes through it.
//! `specs/Classes.antt` says which types are alike, `specs/Tests.antt` what a test asks of a type and what a question
//! finds, `specs/Finding.antt` what it is to be the first of a list. What needs declarations a caller tests itself: it
//! asks again from the next place, and `proofs/Asking.antt` makes of these answers the first permission that meets the
//! caller's own condition.
#![tactic(auto)]

mod index;
mod labels;
mod likeness;
mod test;

pub use index::Indexed;
pub use test::Test;
