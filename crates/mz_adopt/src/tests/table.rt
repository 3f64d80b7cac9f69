//! The table of tests: a command, the permission of the adopter that it is said to use, and the state after it.

/// The data types, each with one constructor of its own number, all mutable: one that is adopted, one that adopts it, one
/// that adopts nothing, and one that adopts its own blocks.
pub const NODE: u32 = 0;

pub const POOL: u32 = 1;

pub const HEAP: u32 = 2;

pub const OWN: u32 = 3;

/// A permission. Every block has one field.
#[derive(Clone, Copy)]
pub enum Held {
    Int(u32),
    Dynamic(u32),
    Named(u32, u32),
    Equal(u32, u32),
    /// Its name, its constructor, the name of its field, and what it adopts.
    Block(u32, u32, u32, Option<u32>),
}

/// What a command does: a block and its adopter, or what is copied.
#[derive(Clone, Copy)]
pub enum Does {
    Give(u32, u32),
    Take(u32, u32),
    Copy(u32),
}

/// The call that is tried.
#[derive(Clone, Copy)]
pub enum By {
    Give,
    Take,
}

/// The state after a command.
#[derive(Clone, Copy)]
pub enum After {
    /// The command has no instance, and the state is as it was.
    Same,
    /// The first permission of this block at this data type is taken out; that it may be asked for is added, and the
    /// command's name gets `()`.
    Given(u32, u32),
    /// The block is added at this data type, and the command's name gets `()`.
    Taken(u32, u32),
}

/// A command in the state `START`: what is tried, the command's name and what it does, the permission that it is said to
/// use, and the state after it.
pub type Row = (&'static str, u32, Does, Option<Held>, After);

/// The permissions that are held before each command. A node stands there twice, and so does one of two blocks that adopt
/// their own kind.
pub const START: [Held; 14] = [
    Held::Named(1, NODE),
    BY_TYPE,
    BY_BLOCK,
    WITHOUT,
    Held::Named(5, HEAP),
    Held::Dynamic(6),
    Held::Named(1, NODE),
    Held::Int(2),
    Held::Equal(2, 3),
    Held::Named(7, 77),
    Held::Named(8, OWN),
    Held::Named(9, OWN),
    Held::Block(1, NODE, 2, None),
    Held::Named(9, OWN),
];

/// The adopters of three forms: by its data type, by what stands behind its structural type, and a structural type with
/// nothing behind it, whose data type adopts nodes.
const BY_TYPE: Held = Held::Named(2, POOL);

const BY_BLOCK: Held = Held::Block(3, HEAP, 1, Some(NODE));

const WITHOUT: Held = Held::Block(4, POOL, 1, None);

pub const GIVES: [Row; 21] = [
    (
        "a node is given by the data type",
        20,
        Does::Give(1, 2),
        Some(BY_TYPE),
        After::Given(1, NODE),
    ),
    (
        "a node is given by the block",
        20,
        Does::Give(1, 3),
        Some(BY_BLOCK),
        After::Given(1, NODE),
    ),
    (
        "a structural type adopts what stands behind it alone",
        20,
        Does::Give(1, 4),
        Some(WITHOUT),
        After::Same,
    ),
    (
        "a data type without a clause adopts nothing",
        20,
        Does::Give(1, 5),
        Some(Held::Named(5, HEAP)),
        After::Same,
    ),
    (
        "a number adopts nothing",
        20,
        Does::Give(1, 2),
        Some(Held::Int(2)),
        After::Same,
    ),
    (
        "an equation adopts nothing",
        20,
        Does::Give(1, 2),
        Some(Held::Equal(2, 3)),
        After::Same,
    ),
    (
        "an undeclared data type adopts nothing",
        20,
        Does::Give(1, 7),
        Some(Held::Named(7, 77)),
        After::Same,
    ),
    (
        "the adopter's permission is named",
        20,
        Does::Give(1, 2),
        None,
        After::Same,
    ),
    (
        "the permission named is the adopter's",
        20,
        Does::Give(1, 2),
        Some(BY_BLOCK),
        After::Same,
    ),
    (
        "the adopter's data type is held",
        20,
        Does::Give(1, 3),
        Some(Held::Named(3, POOL)),
        After::Same,
    ),
    (
        "the adopter's block is held with its clause",
        20,
        Does::Give(1, 4),
        Some(Held::Block(4, POOL, 1, Some(NODE))),
        After::Same,
    ),
    (
        "what is given is held",
        20,
        Does::Give(10, 2),
        Some(BY_TYPE),
        After::Same,
    ),
    (
        "what is given is held at the adopted data type",
        20,
        Does::Give(5, 2),
        Some(BY_TYPE),
        After::Same,
    ),
    (
        "to be asked for isn't to be held",
        20,
        Does::Give(6, 2),
        Some(BY_TYPE),
        After::Same,
    ),
    (
        "what is given isn't the adopter itself",
        20,
        Does::Give(8, 8),
        Some(Held::Named(8, OWN)),
        After::Same,
    ),
    (
        "the adopter still stands where it is held twice",
        20,
        Does::Give(9, 9),
        Some(Held::Named(9, OWN)),
        After::Given(9, OWN),
    ),
    (
        "a block is given to another of its kind",
        20,
        Does::Give(8, 9),
        Some(Held::Named(9, OWN)),
        After::Given(8, OWN),
    ),
    (
        "the command's name is new",
        6,
        Does::Give(1, 2),
        Some(BY_TYPE),
        After::Same,
    ),
    (
        "the command's name isn't given itself",
        1,
        Does::Give(1, 2),
        Some(BY_TYPE),
        After::Same,
    ),
    (
        "a take is no give",
        20,
        Does::Take(6, 2),
        Some(BY_TYPE),
        After::Same,
    ),
    ("a copy is no give", 20, Does::Copy(1), None, After::Same),
];

pub const TAKES: [Row; 16] = [
    (
        "a node is taken by the data type",
        20,
        Does::Take(6, 2),
        Some(BY_TYPE),
        After::Taken(6, NODE),
    ),
    (
        "a node is taken by the block",
        20,
        Does::Take(6, 3),
        Some(BY_BLOCK),
        After::Taken(6, NODE),
    ),
    (
        "a block that adopts its kind is asked",
        20,
        Does::Take(6, 8),
        Some(Held::Named(8, OWN)),
        After::Taken(6, OWN),
    ),
    (
        "a structural type adopts what stands behind it alone",
        20,
        Does::Take(6, 4),
        Some(WITHOUT),
        After::Same,
    ),
    (
        "a data type without a clause adopts nothing",
        20,
        Does::Take(6, 5),
        Some(Held::Named(5, HEAP)),
        After::Same,
    ),
    (
        "a number adopts nothing",
        20,
        Does::Take(6, 2),
        Some(Held::Int(2)),
        After::Same,
    ),
    (
        "an equation adopts nothing",
        20,
        Does::Take(6, 2),
        Some(Held::Equal(2, 3)),
        After::Same,
    ),
    (
        "an undeclared data type adopts nothing",
        20,
        Does::Take(6, 7),
        Some(Held::Named(7, 77)),
        After::Same,
    ),
    (
        "the adopter's permission is named",
        20,
        Does::Take(6, 2),
        None,
        After::Same,
    ),
    (
        "the permission named is the adopter's",
        20,
        Does::Take(6, 2),
        Some(BY_BLOCK),
        After::Same,
    ),
    (
        "the adopter's data type is held",
        20,
        Does::Take(6, 3),
        Some(Held::Named(3, POOL)),
        After::Same,
    ),
    (
        "the adopter's block is held with its clause",
        20,
        Does::Take(6, 4),
        Some(Held::Block(4, POOL, 1, Some(NODE))),
        After::Same,
    ),
    (
        "what is taken may be asked for",
        20,
        Does::Take(1, 2),
        Some(BY_TYPE),
        After::Same,
    ),
    (
        "the command's name is new",
        9,
        Does::Take(6, 2),
        Some(BY_TYPE),
        After::Same,
    ),
    (
        "a give is no take",
        20,
        Does::Give(1, 2),
        Some(BY_TYPE),
        After::Same,
    ),
    ("a copy is no take", 20, Does::Copy(1), None, After::Same),
];
