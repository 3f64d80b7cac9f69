//! Ends: what is used up, and the ends at which something is missing.
use super::words::{After, CELL, CONS, End, HOLDER, Held, LIST};

const FIRST: Held = Held::Named(1, CELL);

const SECOND: Held = Held::Named(2, CELL);

/// Two cells, the first of them twice, an integer and what else may be copied.
const HELD: &[Held] = &[
    FIRST,
    Held::Int(3),
    SECOND,
    FIRST,
    Held::Named(4, LIST),
    Held::Equal(5, 3),
    Held::Block(6, CONS, &[3, 4], None),
];

pub(crate) const ENDS: &[End] = &[
    (
        "where nothing is owed all stays",
        &[],
        HELD,
        After::Adds(&[]),
    ),
    ("nothing is owed of nothing", &[], &[], After::Adds(&[])),
    (
        "what may be copied stays",
        &[
            Held::Int(3),
            Held::Named(4, LIST),
            Held::Equal(5, 3),
            Held::Block(6, CONS, &[3, 4], None),
        ],
        HELD,
        After::Adds(&[]),
    ),
    (
        "an integer that is owed twice is held once",
        &[Held::Int(3), Held::Int(3)],
        HELD,
        After::Adds(&[]),
    ),
    (
        "the first copy of a cell goes",
        &[FIRST],
        HELD,
        After::Is(&[
            Held::Int(3),
            SECOND,
            FIRST,
            Held::Named(4, LIST),
            Held::Equal(5, 3),
            Held::Block(6, CONS, &[3, 4], None),
        ]),
    ),
    (
        "a cell that is owed twice goes twice, whatever else is owed",
        &[FIRST, Held::Int(3), SECOND, FIRST],
        HELD,
        After::Is(&[
            Held::Int(3),
            Held::Named(4, LIST),
            Held::Equal(5, 3),
            Held::Block(6, CONS, &[3, 4], None),
        ]),
    ),
    (
        "an immutable block that holds a cell goes, and that a lock is held",
        &[Held::Locked(7), Held::Named(8, HOLDER)],
        &[Held::Named(8, HOLDER), Held::Lock(7, 1), Held::Locked(7)],
        After::Is(&[Held::Lock(7, 1)]),
    ),
    (
        "the first that is owed is held",
        &[Held::Named(7, CELL), FIRST, Held::Int(3)],
        HELD,
        After::Refused,
    ),
    (
        "one between is held",
        &[FIRST, Held::Named(7, CELL), Held::Int(3)],
        HELD,
        After::Refused,
    ),
    (
        "the last that is owed is held",
        &[FIRST, SECOND, Held::Int(7)],
        HELD,
        After::Refused,
    ),
    (
        "a cell that is owed twice is held twice",
        &[SECOND, SECOND],
        HELD,
        After::Refused,
    ),
    (
        "something is owed of nothing",
        &[Held::Unknown(1)],
        &[],
        After::Refused,
    ),
    (
        "of a cell that was lent and a result both are owed",
        &[FIRST, Held::Unknown(3)],
        &[Held::Unknown(3)],
        After::Refused,
    ),
    (
        "of a cell that was consumed and a result the result is owed",
        &[Held::Unknown(3)],
        &[Held::Unknown(3)],
        After::Adds(&[]),
    ),
];
