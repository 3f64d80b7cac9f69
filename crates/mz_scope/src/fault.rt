//! What may be wrong with a name or a shape, and where.
use mz_tree::Place;

/// What is wrong, in the order in which causes at one place are answered.
#[derive(Clone, Copy, Debug, PartialEq, Eq)]
pub(crate) enum Cause {
    /// A name isn't declared in its sort and scope.
    Unknown,
    /// A name is declared again.
    Twice,
    /// Fields, arguments or constructors don't fit what is declared.
    Shape,
    /// A match lacks a constructor.
    NotExhaustive,
    /// A limit is passed.
    TooMany,
}

/// What is wrong at a place.
#[derive(Clone, Copy, Debug, PartialEq, Eq)]
pub(crate) struct Fault {
    pub(crate) cause: Cause,
    pub(crate) place: Place,
}
