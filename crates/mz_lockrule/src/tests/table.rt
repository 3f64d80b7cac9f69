//! The table of tests: a command, the permission that it is said to use, and the state after it.

/// The data type of all blocks, which is mutable.
pub const CELL: u32 = 0;

/// Signatures: the function needs its argument as a cell and as one that may be asked for; it has two parameters and needs
/// nothing; it consumes its argument as a cell. No other is declared.
pub const TWO: u32 = 0;

pub const PAIR: u32 = 1;

pub const EATS: u32 = 2;

pub const NOWHERE: u32 = 99;

/// A permission. A lock guards a cell and a number, or a cell alone.
#[derive(Clone, Copy)]
pub enum Held {
    Int(u32),
    Unknown(u32),
    Dynamic(u32),
    Locked(u32),
    Cell(u32),
    Function(u32, u32),
    Equal(u32, u32),
    /// A lock over a cell and a number.
    Both(u32, u32, u32),
    /// A lock over a cell.
    Lock(u32, u32),
}

/// What a command does.
#[derive(Clone, Copy)]
pub enum Does {
    /// A new lock over a cell and a number.
    NewBoth(u32, u32),
    /// A new lock over two cells.
    NewCells(u32, u32),
    Acquire(u32),
    Release(u32),
    Spawn(u32, u32),
    Copy(u32),
}

/// The call that is tried.
#[derive(Clone, Copy)]
pub enum By {
    NewLock,
    Acquire,
    Release,
    Spawn,
}

/// The state after a command.
#[derive(Clone, Copy)]
pub enum After {
    /// The command has no instance, and the state is as it was.
    Same,
    /// The first permission for this cell is taken out, and this is added.
    Locked(u32, Held),
    /// A cell, a number and that the lock is held are added, and the command's name gets `()`.
    Acquired(u32, u32, u32),
    /// The first permission for this cell is taken out, and that the lock is held, and the command's name gets `()`.
    Released(u32, u32),
    /// The first permission for this cell is taken out, and the command's name gets `()`.
    Spawned(u32),
}

/// A command in the state `START`: what is tried, the command's name and what it does, the permission that it is said to
/// use, and the state after it.
pub type Row = (&'static str, u32, Does, Option<Held>, After);

/// A lock that is free, one that is held with all that it guards, and one that is held without its cell.
const FREE: Held = Held::Both(3, 1, 2);

const TAKEN: Held = Held::Both(4, 5, 2);

const LACKING: Held = Held::Lock(9, 10);

/// The permissions that are held before each command. The cell 1 stands there twice.
pub const START: [Held; 16] = [
    Held::Cell(1),
    Held::Int(2),
    FREE,
    TAKEN,
    Held::Cell(5),
    Held::Locked(4),
    LACKING,
    Held::Locked(9),
    Held::Function(6, TWO),
    Held::Function(7, PAIR),
    Held::Function(8, NOWHERE),
    Held::Function(11, EATS),
    Held::Dynamic(1),
    Held::Cell(1),
    Held::Equal(3, 4),
    Held::Int(3),
];

pub const NEW_LOCKS: [Row; 9] = [
    (
        "a lock takes the cell and leaves the number",
        20,
        Does::NewBoth(1, 2),
        None,
        After::Locked(1, Held::Both(20, 1, 2)),
    ),
    (
        "the cell is held",
        20,
        Does::NewBoth(12, 2),
        None,
        After::Same,
    ),
    (
        "the number is held",
        20,
        Does::NewBoth(1, 5),
        None,
        After::Same,
    ),
    (
        "one cell isn't held twice",
        20,
        Does::NewCells(5, 5),
        None,
        After::Same,
    ),
    (
        "the second cell is held",
        20,
        Does::NewCells(1, 12),
        None,
        After::Same,
    ),
    (
        "no permission is named",
        20,
        Does::NewBoth(1, 2),
        Some(Held::Int(2)),
        After::Same,
    ),
    (
        "the command's name is new",
        2,
        Does::NewBoth(1, 2),
        None,
        After::Same,
    ),
    (
        "the command's name isn't in another lock",
        10,
        Does::NewBoth(1, 2),
        None,
        After::Same,
    ),
    (
        "a copy is no new lock",
        20,
        Does::Copy(1),
        None,
        After::Same,
    ),
];

pub const ACQUIRES: [Row; 9] = [
    (
        "a free lock gives what it guards",
        20,
        Does::Acquire(3),
        Some(FREE),
        After::Acquired(1, 2, 3),
    ),
    (
        "a held lock is acquired again",
        20,
        Does::Acquire(4),
        Some(TAKEN),
        After::Acquired(5, 2, 4),
    ),
    (
        "the lock's permission is named",
        20,
        Does::Acquire(3),
        None,
        After::Same,
    ),
    (
        "the permission named is the lock's",
        20,
        Does::Acquire(3),
        Some(TAKEN),
        After::Same,
    ),
    (
        "the lock is held with what it guards",
        20,
        Does::Acquire(3),
        Some(Held::Lock(3, 1)),
        After::Same,
    ),
    (
        "a number is no lock",
        20,
        Does::Acquire(3),
        Some(Held::Int(3)),
        After::Same,
    ),
    (
        "an equation is no lock",
        20,
        Does::Acquire(3),
        Some(Held::Equal(3, 4)),
        After::Same,
    ),
    (
        "the command's name is new",
        11,
        Does::Acquire(3),
        Some(FREE),
        After::Same,
    ),
    (
        "a release is no acquire",
        20,
        Does::Release(4),
        Some(TAKEN),
        After::Same,
    ),
];

pub const RELEASES: [Row; 10] = [
    (
        "a held lock takes back what it guards",
        20,
        Does::Release(4),
        Some(TAKEN),
        After::Released(5, 4),
    ),
    (
        "the lock is held",
        20,
        Does::Release(3),
        Some(FREE),
        After::Same,
    ),
    (
        "what the lock guards is held",
        20,
        Does::Release(9),
        Some(LACKING),
        After::Same,
    ),
    (
        "the lock's permission is named",
        20,
        Does::Release(4),
        None,
        After::Same,
    ),
    (
        "the permission named is the lock's",
        20,
        Does::Release(4),
        Some(FREE),
        After::Same,
    ),
    (
        "the lock's permission is held",
        20,
        Does::Release(4),
        Some(Held::Lock(4, 5)),
        After::Same,
    ),
    (
        "that it is held is no lock",
        20,
        Does::Release(4),
        Some(Held::Locked(4)),
        After::Same,
    ),
    (
        "an equation is no lock",
        20,
        Does::Release(3),
        Some(Held::Equal(3, 4)),
        After::Same,
    ),
    (
        "the command's name is new",
        1,
        Does::Release(4),
        Some(TAKEN),
        After::Same,
    ),
    (
        "an acquire is no release",
        20,
        Does::Acquire(4),
        Some(TAKEN),
        After::Same,
    ),
];

pub const SPAWNS: [Row; 12] = [
    (
        "a thread takes the cell and leaves what may be copied",
        20,
        Does::Spawn(6, 1),
        Some(Held::Function(6, TWO)),
        After::Spawned(1),
    ),
    (
        "a thread takes what its function consumes",
        20,
        Does::Spawn(11, 5),
        Some(Held::Function(11, EATS)),
        After::Spawned(5),
    ),
    (
        "the second thing needed is held",
        20,
        Does::Spawn(6, 5),
        Some(Held::Function(6, TWO)),
        After::Same,
    ),
    (
        "the first thing needed is held",
        20,
        Does::Spawn(11, 12),
        Some(Held::Function(11, EATS)),
        After::Same,
    ),
    (
        "the function has one parameter",
        20,
        Does::Spawn(7, 1),
        Some(Held::Function(7, PAIR)),
        After::Same,
    ),
    (
        "the function's signature is declared",
        20,
        Does::Spawn(8, 1),
        Some(Held::Function(8, NOWHERE)),
        After::Same,
    ),
    (
        "the function's permission is named",
        20,
        Does::Spawn(6, 1),
        None,
        After::Same,
    ),
    (
        "the permission named is the function's",
        20,
        Does::Spawn(6, 1),
        Some(Held::Function(11, EATS)),
        After::Same,
    ),
    (
        "the function's permission is held",
        20,
        Does::Spawn(6, 1),
        Some(Held::Function(6, EATS)),
        After::Same,
    ),
    (
        "a number is no function",
        20,
        Does::Spawn(2, 1),
        Some(Held::Int(2)),
        After::Same,
    ),
    (
        "the command's name is new",
        9,
        Does::Spawn(6, 1),
        Some(Held::Function(6, TWO)),
        After::Same,
    ),
    (
        "a copy is no spawn",
        20,
        Does::Copy(1),
        Some(Held::Function(6, TWO)),
        After::Same,
    ),
];

/// A command, the permission that it is said to use, and whether it has an instance.
pub type Turn = (u32, Does, Held, bool);

/// One after the other from `START`: a lock is acquired twice, and released as often and no more.
pub const TURNS: [Turn; 6] = [
    (20, Does::Release(3), FREE, false),
    (20, Does::Acquire(3), FREE, true),
    (21, Does::Acquire(3), FREE, true),
    (22, Does::Release(3), FREE, true),
    (23, Does::Release(3), FREE, true),
    (24, Does::Release(3), FREE, false),
];
