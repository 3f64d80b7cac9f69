//! Why a source is refused.
use mz_tree::Place;
use thiserror::Error;

/// Why a source is refused, in the order in which causes are answered.
#[derive(Clone, Copy, Debug, PartialEq, Eq, Error)]
pub enum Refusal {
    /// It has more than 1,048,576 bytes; or the whole input, of a source and a script, has more than 67,108,864.
    #[error("source of more than 1048576 bytes, or an input of more than 67108864")]
    TooLong,
    /// A byte begins no token.
    #[error("no token begins with the byte at {0}")]
    BadByte(Place),
    /// A number is past 2^64-1.
    #[error("number above 18446744073709551615 at {0}")]
    BadNumber(Place),
    /// A name has more than 64 bytes.
    #[error("name of more than 64 bytes at {0}")]
    NameTooLong(Place),
    /// A token can't stand where it does, or the text ends too early.
    #[error("unexpected token or end of the source at {0}")]
    Unexpected(Place),
    /// More than 200 brackets are open.
    #[error("too many open brackets at {0}")]
    TooDeep(Place),
    /// A name isn't declared in its sort and scope.
    #[error("unknown name at {0}")]
    UnknownName(Place),
    /// A name is declared again.
    #[error("name declared a second time at {0}")]
    DeclaredTwice(Place),
    /// Fields, arguments or constructors don't fit what is declared.
    #[error("fields, arguments or constructors at {0} do not fit their declaration")]
    WrongShape(Place),
    /// A match lacks a constructor of its data type.
    #[error("match at {0} lacks a constructor of its data type")]
    CasesMissing(Place),
    /// A limit is passed.
    #[error("limit passed by what stands at {0}")]
    TooMany(Place),
    /// There is no function `main` without parameters.
    #[error("no function main without parameters")]
    NoMain,
    /// An `adopts` stands on what is immutable.
    #[error("adopts clause on an immutable type at {0}")]
    ImmutableAdopter(Place),
    /// An `adopts` names an immutable data type.
    #[error("adopts clause at {0} names an immutable data type")]
    NotExclusive(Place),
    /// It isn't of the first form, which is all that is run today.
    #[error("program outside of the first form, which is not run yet")]
    Unbuilt,
    /// This line of the script, counted from 1, can't stand there, or the script lacks it.
    #[error("line {0} of the script is missing or cannot stand there")]
    WrongLine(u32),
    /// A view step has no instance: where it is made, and its number, counted from 1, since the command or brace before it.
    #[error("step {1} of the script at {0} is not one of the rules")]
    BadStep(Place, u64),
    /// A command, or the end of a body, has no instance.
    #[error("command at {0} is not one of the rules")]
    BadCommand(Place),
    /// The branches don't join in what the script says.
    #[error("branches at {0} do not join in what the script says")]
    BadJoin(Place),
}

/// Why reading a source stops.
#[derive(Clone, Copy, Debug, PartialEq, Eq, Error)]
pub enum Stop {
    /// The source is refused.
    #[error(transparent)]
    Refused(#[from] Refusal),
    /// Want of memory.
    #[error("not enough memory to read the source")]
    Memory,
}
