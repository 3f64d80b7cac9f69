//! Calls: what goes, what comes back and what is given, and the calls that have no instance.
use super::words::{
    ADDS, ASKS, After, BOTH, BOX, CELL, Does, EATS, FILLS, Held, KEEPS, LOCKS, LOOKS, NAMES,
    NOWHERE, POURS, QUEUE, READY, Row, TURNS,
};

/// The callee, by the signature that it has.
const LOOKER: Held = Held::Function(9, LOOKS);

const EATER: Held = Held::Function(9, EATS);

const ADDER: Held = Held::Function(9, ADDS);

const KEEPER: Held = Held::Function(9, KEEPS);

const TWO: Held = Held::Function(9, BOTH);

const TURNER: Held = Held::Function(9, TURNS);

const POURER: Held = Held::Function(9, POURS);

const ASKER: Held = Held::Function(9, ASKS);

const FILLER: Held = Held::Function(9, FILLS);

const LOCKER: Held = Held::Function(9, LOCKS);

const NAMER: Held = Held::Function(9, NAMES);

const STARTER: Held = Held::Function(9, READY);

/// The cells.
const FIRST: Held = Held::Named(1, CELL);

const SECOND: Held = Held::Named(2, CELL);

/// A queue.
const LINE: Held = Held::Named(2, QUEUE);

/// A cell, a queue, an integer, and a function that pours the one into the other so many times.
const POURING: &[Held] = &[FIRST, LINE, Held::Int(3), POURER];

pub(crate) const PASSING: &[Row] = &[
    (
        "a cell is lent and comes back",
        20,
        Does::Call(9, &[1]),
        Some(LOOKER),
        &[FIRST, LOOKER],
        After::Is(&[LOOKER, FIRST, Held::Unknown(20)]),
    ),
    (
        "the first of two copies is lent",
        20,
        Does::Call(9, &[1]),
        Some(LOOKER),
        &[FIRST, SECOND, FIRST, LOOKER],
        After::Is(&[SECOND, FIRST, LOOKER, FIRST, Held::Unknown(20)]),
    ),
    (
        "a cell is consumed and doesn't come back",
        20,
        Does::Call(9, &[1]),
        Some(EATER),
        &[FIRST, EATER],
        After::Is(&[EATER, Held::Int(20)]),
    ),
    (
        "integers stay, each once",
        20,
        Does::Call(9, &[1, 2]),
        Some(ADDER),
        &[Held::Int(1), Held::Int(2), ADDER],
        After::Adds(&[Held::Int(20)]),
    ),
    (
        "one integer is enough for two parameters",
        20,
        Does::Call(9, &[1, 1]),
        Some(ADDER),
        &[Held::Int(1), ADDER],
        After::Adds(&[Held::Int(20)]),
    ),
    (
        "an integer stays though it is consumed",
        20,
        Does::Call(9, &[1]),
        Some(KEEPER),
        &[Held::Int(1), KEEPER],
        After::Adds(&[Held::Unknown(20)]),
    ),
    (
        "two cells are lent and come back in order",
        20,
        Does::Call(9, &[2, 1]),
        Some(TWO),
        &[FIRST, SECOND, TWO],
        After::Is(&[TWO, SECOND, FIRST, Held::Unknown(20)]),
    ),
    (
        "a cell that is held twice is lent twice",
        20,
        Does::Call(9, &[1, 1]),
        Some(TWO),
        &[FIRST, FIRST, TWO],
        After::Is(&[TWO, FIRST, FIRST, Held::Unknown(20)]),
    ),
    (
        "what comes back stands in the order of the needs",
        20,
        Does::Call(9, &[1, 2]),
        Some(TURNER),
        &[FIRST, SECOND, TURNER],
        After::Is(&[TURNER, SECOND, FIRST, Held::Unknown(20)]),
    ),
    (
        "the first argument is consumed, the second stays, the third is lent",
        20,
        Does::Call(9, &[1, 3, 2]),
        Some(POURER),
        POURING,
        After::Is(&[Held::Int(3), POURER, LINE, Held::Unknown(20)]),
    ),
    (
        "a further need of an argument stays",
        20,
        Does::Call(9, &[1]),
        Some(ASKER),
        &[Held::Dynamic(1), FIRST, ASKER],
        After::Is(&[Held::Dynamic(1), ASKER, FIRST, Held::Unknown(20)]),
    ),
    (
        "the result is a block with the argument",
        20,
        Does::Call(9, &[1]),
        Some(FILLER),
        &[Held::Int(1), FILLER],
        After::Adds(&[Held::Block(20, BOX, &[1], None)]),
    ),
    (
        "the result is a lock over the argument",
        20,
        Does::Call(9, &[1]),
        Some(LOCKER),
        &[FIRST, LOCKER],
        After::Is(&[LOCKER, Held::Lock(20, 1)]),
    ),
    (
        "the result equals the argument, of which nothing is asked",
        20,
        Does::Call(9, &[3]),
        Some(NAMER),
        &[FIRST, NAMER],
        After::Adds(&[Held::Equal(20, 3)]),
    ),
    (
        "a call may have no argument",
        20,
        Does::Call(9, &[]),
        Some(STARTER),
        &[STARTER],
        After::Adds(&[Held::Unknown(20)]),
    ),
];

pub(crate) const REFUSED: &[Row] = &[
    (
        "one cell isn't lent twice",
        20,
        Does::Call(9, &[1, 1]),
        Some(TWO),
        &[FIRST, SECOND, TWO],
        After::Refused,
    ),
    (
        "the first cell is held",
        20,
        Does::Call(9, &[1, 2]),
        Some(TWO),
        &[SECOND, TWO],
        After::Refused,
    ),
    (
        "the second cell is held",
        20,
        Does::Call(9, &[1, 2]),
        Some(TWO),
        &[FIRST, TWO],
        After::Refused,
    ),
    (
        "the integer is held",
        20,
        Does::Call(9, &[1, 3, 2]),
        Some(POURER),
        &[FIRST, LINE, POURER],
        After::Refused,
    ),
    (
        "the second argument doesn't stand first",
        20,
        Does::Call(9, &[3, 1, 2]),
        Some(POURER),
        POURING,
        After::Refused,
    ),
    (
        "the third argument doesn't stand first",
        20,
        Does::Call(9, &[2, 3, 1]),
        Some(POURER),
        POURING,
        After::Refused,
    ),
    (
        "the third argument doesn't stand second",
        20,
        Does::Call(9, &[1, 2, 3]),
        Some(POURER),
        POURING,
        After::Refused,
    ),
    (
        "a further need is held",
        20,
        Does::Call(9, &[1]),
        Some(ASKER),
        &[FIRST, ASKER],
        After::Refused,
    ),
    (
        "what equals a cell isn't lent",
        20,
        Does::Call(9, &[3]),
        Some(LOOKER),
        &[FIRST, Held::Equal(3, 1), LOOKER],
        After::Refused,
    ),
    (
        "an opened cell isn't lent",
        20,
        Does::Call(9, &[1]),
        Some(LOOKER),
        &[Held::Block(1, BOX, &[2], None), Held::Int(2), LOOKER],
        After::Refused,
    ),
    (
        "a call has an argument for each parameter",
        20,
        Does::Call(9, &[]),
        Some(LOOKER),
        &[FIRST, LOOKER],
        After::Refused,
    ),
    (
        "a call has no argument without a parameter",
        20,
        Does::Call(9, &[1, 2]),
        Some(LOOKER),
        &[FIRST, SECOND, LOOKER],
        After::Refused,
    ),
    (
        "a call names the callee's permission",
        20,
        Does::Call(9, &[1]),
        None,
        &[FIRST, LOOKER],
        After::Refused,
    ),
    (
        "the callee's permission is held",
        20,
        Does::Call(9, &[1]),
        Some(LOOKER),
        &[FIRST, EATER],
        After::Refused,
    ),
    (
        "the permission called by is the callee's",
        20,
        Does::Call(8, &[1]),
        Some(LOOKER),
        &[FIRST, LOOKER, Held::Function(8, LOOKS)],
        After::Refused,
    ),
    (
        "the callee's signature is declared",
        20,
        Does::Call(9, &[1]),
        Some(Held::Function(9, NOWHERE)),
        &[FIRST, Held::Function(9, NOWHERE)],
        After::Refused,
    ),
    (
        "an integer isn't called",
        20,
        Does::Call(9, &[1]),
        Some(Held::Int(9)),
        &[FIRST, Held::Int(9)],
        After::Refused,
    ),
    (
        "what equals a function isn't called",
        20,
        Does::Call(9, &[1]),
        Some(Held::Equal(9, 8)),
        &[FIRST, Held::Equal(9, 8), Held::Function(8, LOOKS)],
        After::Refused,
    ),
    (
        "the name of a call is new",
        1,
        Does::Call(9, &[1]),
        Some(LOOKER),
        &[FIRST, LOOKER],
        After::Refused,
    ),
];
