//! The words of the tables: what is declared, permissions, commands, and what becomes of a state.
use mz_tree::Arith;

/// Data types: `cell`, `raw`, `pool` and `queue` are mutable, and `pool` adopts `cell`; `list` may be copied; `holder` is
/// immutable and holds a cell.
pub(crate) const CELL: u32 = 0;

pub(crate) const RAW: u32 = 1;

pub(crate) const LIST: u32 = 2;

pub(crate) const POOL: u32 = 3;

pub(crate) const HOLDER: u32 = 4;

pub(crate) const QUEUE: u32 = 5;

/// Constructors: of `cell`, `raw`, `list` twice, `pool`, `holder` and `queue` twice.
pub(crate) const BOX: u32 = 0;

pub(crate) const PAIR: u32 = 1;

pub(crate) const NIL: u32 = 2;

pub(crate) const CONS: u32 = 3;

pub(crate) const BASIN: u32 = 4;

pub(crate) const SHELL: u32 = 5;

pub(crate) const EMPTY: u32 = 6;

pub(crate) const FULL: u32 = 7;

/// Signatures. `LOOKS` lends a cell and `EATS` consumes it. `ADDS` needs two integers, and `KEEPS` consumes one. `BOTH` lends
/// two cells, and `TURNS` names the second first. `POURS` consumes a cell, needs an integer and lends a queue. `ASKS` needs a
/// cell that may be asked for. `FILLS` gives a box with its argument, `LOCKS` a lock over its argument, `NAMES` its argument.
/// `READY` has no parameter.
pub(crate) const LOOKS: u32 = 0;

pub(crate) const EATS: u32 = 1;

pub(crate) const ADDS: u32 = 2;

pub(crate) const KEEPS: u32 = 3;

pub(crate) const BOTH: u32 = 4;

pub(crate) const TURNS: u32 = 5;

pub(crate) const POURS: u32 = 6;

pub(crate) const ASKS: u32 = 7;

pub(crate) const FILLS: u32 = 8;

pub(crate) const LOCKS: u32 = 9;

pub(crate) const NAMES: u32 = 10;

pub(crate) const READY: u32 = 11;

/// No data type, constructor, signature or function has this number.
pub(crate) const NOWHERE: u32 = 99;

/// A permission.
#[derive(Clone, Copy)]
pub(crate) enum Held {
    Int(u32),
    Unknown(u32),
    Dynamic(u32),
    Locked(u32),
    Named(u32, u32),
    Function(u32, u32),
    Equal(u32, u32),
    /// Its name, its constructor, the names of its fields, and what it adopts.
    Block(u32, u32, &'static [u32], Option<u32>),
    /// A lock over a cell.
    Lock(u32, u32),
}

/// What a command does.
#[derive(Clone, Copy)]
pub(crate) enum Does {
    Int(u64),
    Unit,
    Fun(u32),
    Copy(u32),
    Arith(Arith, u32, u32),
    New(u32, &'static [u32]),
    Read(u32, u32, u32),
    Write(u32, u32, u32, u32),
    Retag(u32, u32, u32),
    Call(u32, &'static [u32]),
    Print(u32),
    If(u32),
    /// A block, a data type, and the constructor of each case.
    Match(u32, u32, &'static [u32]),
    Give(u32, u32),
    Take(u32, u32),
    /// A new lock over a cell.
    NewLock(u32),
    Acquire(u32),
    Release(u32),
    Spawn(u32, u32),
}

/// What becomes of a state.
#[derive(Clone, Copy)]
pub(crate) enum After {
    /// There is no instance, and the state is as it was.
    Refused,
    /// These are added at the end, and all else is as it was.
    Adds(&'static [Held]),
    /// These are held, in this order.
    Is(&'static [Held]),
}

/// A command: what is tried, the name that it binds and what it does, the permission that it is said to use, the state before
/// it and the state after it.
pub(crate) type Row = (
    &'static str,
    u32,
    Does,
    Option<Held>,
    &'static [Held],
    After,
);

/// A branch: what is tried, the command that binds the name 20, the permission that it is said to use, the number of the
/// branch, the first fresh name, the state before the command and that in which the branch begins.
pub(crate) type Branch = (
    &'static str,
    Does,
    Option<Held>,
    u32,
    u32,
    &'static [Held],
    After,
);

/// The bodies that a script walks: what is tried, a command, the permission that it is said to use, and the bodies by their
/// numbers, from 1 in the order in which they are written.
pub(crate) type Walk = (&'static str, Does, Option<Held>, &'static [u32]);

/// An end: what is tried, what is owed, the state before it and the state after it.
pub(crate) type End = (&'static str, &'static [Held], &'static [Held], After);

/// The data types: whether one is mutable, what it adopts, and its constructors.
pub(crate) const DATA_TYPES: &[(bool, Option<u32>, &[u32])] = &[
    (true, None, &[BOX]),
    (true, None, &[PAIR]),
    (false, None, &[NIL, CONS]),
    (true, Some(CELL), &[BASIN]),
    (false, None, &[SHELL]),
    (true, None, &[EMPTY, FULL]),
];

/// The constructors: the data type of one, and what its fields hold, named by their places.
pub(crate) const CONSTRUCTORS: &[(u32, &[Held])] = &[
    (CELL, &[Held::Int(0)]),
    (RAW, &[Held::Int(0), Held::Unknown(1)]),
    (LIST, &[]),
    (LIST, &[Held::Int(0), Held::Named(1, LIST)]),
    (POOL, &[Held::Dynamic(0), Held::Int(1)]),
    (
        HOLDER,
        &[Held::Named(0, CELL), Held::Lock(1, 0), Held::Equal(2, 0)],
    ),
    (QUEUE, &[]),
    (QUEUE, &[Held::Named(0, CELL)]),
];

/// The signatures: how many parameters one has, what it needs and whether that is consumed, and what it gives.
pub(crate) const SIGNATURES: &[(u32, &[(Held, bool)], &[Held])] = &[
    (1, &[(Held::Named(0, CELL), false)], &[Held::Unknown(1)]),
    (1, &[(Held::Named(0, CELL), true)], &[Held::Int(1)]),
    (
        2,
        &[(Held::Int(0), false), (Held::Int(1), false)],
        &[Held::Int(2)],
    ),
    (1, &[(Held::Int(0), true)], &[Held::Unknown(1)]),
    (
        2,
        &[(Held::Named(0, CELL), false), (Held::Named(1, CELL), false)],
        &[Held::Unknown(2)],
    ),
    (
        2,
        &[(Held::Named(1, CELL), false), (Held::Named(0, CELL), false)],
        &[Held::Unknown(2)],
    ),
    (
        3,
        &[
            (Held::Named(0, CELL), true),
            (Held::Int(1), false),
            (Held::Named(2, QUEUE), false),
        ],
        &[Held::Unknown(3)],
    ),
    (
        1,
        &[(Held::Named(0, CELL), false), (Held::Dynamic(0), false)],
        &[Held::Unknown(1)],
    ),
    (
        1,
        &[(Held::Int(0), false)],
        &[Held::Block(1, BOX, &[0], None)],
    ),
    (1, &[(Held::Named(0, CELL), true)], &[Held::Lock(1, 0)]),
    (1, &[], &[Held::Equal(1, 0)]),
    (0, &[], &[Held::Unknown(0)]),
];

/// The functions: the signature of each.
pub(crate) const FUNCTIONS: &[u32] = &[ADDS, LOOKS];
