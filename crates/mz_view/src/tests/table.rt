//! The table of tests: a view step, and the state after it.

/// A permission. A block has two fields where it isn't called empty.
#[derive(Clone, Copy)]
pub enum Held {
    Int(u32),
    Unknown(u32),
    Dynamic(u32),
    Locked(u32),
    Named(u32, u32),
    Equal(u32, u32),
    /// Its name, its constructor, the names of its fields, and what it adopts.
    Block(u32, u32, u32, u32, Option<u32>),
    Empty(u32, u32),
    /// Its name, and `x`, `y` and `z` of what it guards: that x is an integer, and that y is z.
    Lock(u32, u32, u32, u32),
    /// Its name, and names of what it guards: a block, its fields, a lock, and the two sides of what that lock guards.
    Deep(u32, u32, u32, u32, u32, u32, u32),
}

/// A view step.
#[derive(Clone, Copy)]
pub enum Step {
    Drop(Held),
    Copy(Held),
    Unfold(u32, u32, u32),
    Fold(Held),
    Rename(Held, u32),
    Equal(u32, u32),
    Dynamic(u32),
    Clause(Held, u32),
    Unknown(u32),
    Meet(Held, Held),
    Field(Held, u32, u32),
    Spot(Held, u32, u32),
}

/// The state after a step.
#[derive(Clone, Copy)]
pub enum After {
    /// The rule has no instance, and the state is as it was.
    Same,
    /// This is taken out.
    Gone(Held),
    /// This is added, or these are.
    Added(Held),
    Two(Held, Held),
    Three(Held, Held, Held),
    /// The first is taken out, and the others are added.
    Changed(Held, Held),
    Opened(Held, Held, Held, Held),
    /// The first two are taken out, and the third is added.
    Folded(Held, Held, Held),
}

/// What is tried, the step in the state `START`, and the state after it.
pub type Row = (&'static str, Step, After);

const CELL: Held = Held::Named(2, 0);

const ADOPTER: Held = Held::Block(3, 0, 1, 4, Some(1));

const NODE: Held = Held::Named(4, 1);

const LACKING: Held = Held::Block(5, 0, 1, 6, None);

const OTHER: Held = Held::Block(5, 0, 9, 6, None);

const FOREIGN: Held = Held::Block(7, 1, 1, 8, Some(0));

const LEFT: Held = Held::Block(11, 2, 1, 12, None);

const RIGHT: Held = Held::Block(11, 2, 13, 14, None);

const LOCK: Held = Held::Lock(16, 1, 1, 2);

const PLAIN: Held = Held::Block(20, 1, 1, 8, None);

const SHORT: Held = Held::Empty(22, 0);

const STRAY: Held = Held::Block(23, 9, 1, 1, None);

const DEEP: Held = Held::Deep(26, 1, 1, 1, 1, 1, 1);

const FULL: Held = Held::Block(27, 5, 1, 28, None);

/// The permissions that are held before each step. Constructor 0 is of data type 0, which is mutable and adopts 1, and has
/// the contents int and data type 1; 1 is of data type 1, which is mutable, with int and dynamic; 2 and 3 are of data type
/// 2, which is immutable, 3 without fields; 4 is of data type 3, without fields; 5 is of data type 4, with int and that the
/// second field is the first.
pub const START: [Held; 24] = [
    Held::Int(1),
    CELL,
    ADOPTER,
    NODE,
    LACKING,
    FOREIGN,
    Held::Dynamic(8),
    Held::Equal(1, 9),
    Held::Equal(2, 10),
    LEFT,
    RIGHT,
    OTHER,
    LOCK,
    Held::Locked(17),
    Held::Named(18, 2),
    Held::Named(19, 3),
    Held::Int(300),
    PLAIN,
    Held::Named(21, 4),
    SHORT,
    STRAY,
    DEEP,
    FULL,
    Held::Equal(28, 1),
];

/// The rows of the rules that drop, copy, rename, turn round, and say dynamic or unknown.
pub const SIMPLE: [Row; 23] = [
    ("drop an affine one", Step::Drop(CELL), After::Gone(CELL)),
    (
        "drop a duplicable one",
        Step::Drop(Held::Int(1)),
        After::Gone(Held::Int(1)),
    ),
    ("drop nothing", Step::Drop(Held::Int(2)), After::Same),
    (
        "copy an integer",
        Step::Copy(Held::Int(1)),
        After::Added(Held::Int(1)),
    ),
    (
        "copy an equation",
        Step::Copy(Held::Equal(1, 9)),
        After::Added(Held::Equal(1, 9)),
    ),
    ("copy an affine one", Step::Copy(CELL), After::Same),
    (
        "copy a held lock",
        Step::Copy(Held::Locked(17)),
        After::Same,
    ),
    ("copy nothing", Step::Copy(Held::Int(2)), After::Same),
    (
        "rename an integer",
        Step::Rename(Held::Int(1), 9),
        After::Added(Held::Int(9)),
    ),
    (
        "rename an affine one",
        Step::Rename(CELL, 10),
        After::Changed(CELL, Held::Named(10, 0)),
    ),
    (
        "rename an equation",
        Step::Rename(Held::Equal(28, 1), 1),
        After::Added(Held::Equal(1, 1)),
    ),
    (
        "rename to what isn't equal",
        Step::Rename(Held::Int(1), 10),
        After::Same,
    ),
    (
        "rename against the equation",
        Step::Rename(Held::Equal(1, 9), 28),
        After::Same,
    ),
    (
        "rename nothing",
        Step::Rename(Held::Named(1, 0), 9),
        After::Same,
    ),
    (
        "turn an equation round",
        Step::Equal(1, 9),
        After::Added(Held::Equal(9, 1)),
    ),
    (
        "a name that stands nowhere is itself",
        Step::Equal(50, 50),
        After::Added(Held::Equal(50, 50)),
    ),
    ("turn nothing round", Step::Equal(9, 1), After::Same),
    (
        "a cell is dynamic",
        Step::Dynamic(2),
        After::Added(Held::Dynamic(2)),
    ),
    (
        "a mutable block is dynamic",
        Step::Dynamic(3),
        After::Added(Held::Dynamic(3)),
    ),
    (
        "an immutable data type isn't dynamic",
        Step::Dynamic(21),
        After::Same,
    ),
    (
        "an immutable block isn't dynamic",
        Step::Dynamic(11),
        After::Same,
    ),
    ("a held lock isn't dynamic", Step::Dynamic(17), After::Same),
    (
        "unknown",
        Step::Unknown(60),
        After::Added(Held::Unknown(60)),
    ),
];

/// The rows of unfold and fold.
pub const WHOLE: [Row; 20] = [
    (
        "unfold a cell",
        Step::Unfold(2, 0, 400),
        After::Opened(
            CELL,
            Held::Block(2, 0, 400, 401, Some(1)),
            Held::Int(400),
            Held::Named(401, 1),
        ),
    ),
    (
        "unfold what is immutable, at the first names",
        Step::Unfold(21, 4, 256),
        After::Three(
            Held::Block(21, 5, 256, 257, None),
            Held::Int(256),
            Held::Equal(257, 256),
        ),
    ),
    (
        "unfold at the last names",
        Step::Unfold(2, 0, 4294967294),
        After::Opened(
            CELL,
            Held::Block(2, 0, 4294967294, 4294967295, Some(1)),
            Held::Int(4294967294),
            Held::Named(4294967295, 1),
        ),
    ),
    (
        "unfold without fields, at any number",
        Step::Unfold(19, 3, 5),
        After::Added(Held::Empty(19, 4)),
    ),
    (
        "unfold past the last name",
        Step::Unfold(2, 0, 4294967295),
        After::Same,
    ),
    (
        "unfold below the first name",
        Step::Unfold(2, 0, 255),
        After::Same,
    ),
    (
        "unfold at a name that occurs",
        Step::Unfold(2, 0, 300),
        After::Same,
    ),
    (
        "unfold before a name that occurs",
        Step::Unfold(2, 0, 299),
        After::Same,
    ),
    (
        "unfold one of two constructors",
        Step::Unfold(18, 2, 400),
        After::Same,
    ),
    ("unfold no data type", Step::Unfold(2, 9, 400), After::Same),
    ("unfold nothing", Step::Unfold(4, 0, 400), After::Same),
    (
        "fold an adopter",
        Step::Fold(ADOPTER),
        After::Folded(ADOPTER, NODE, Held::Named(3, 0)),
    ),
    (
        "fold a block that adopts nothing",
        Step::Fold(PLAIN),
        After::Changed(PLAIN, Held::Named(20, 1)),
    ),
    (
        "fold what is immutable",
        Step::Fold(FULL),
        After::Added(Held::Named(27, 4)),
    ),
    ("fold a foreign clause", Step::Fold(FOREIGN), After::Same),
    (
        "fold without the second content",
        Step::Fold(LACKING),
        After::Same,
    ),
    ("fold too few names", Step::Fold(SHORT), After::Same),
    ("fold no constructor", Step::Fold(STRAY), After::Same),
    (
        "fold nothing",
        Step::Fold(Held::Block(2, 0, 1, 4, None)),
        After::Same,
    ),
    ("fold an integer", Step::Fold(Held::Int(1)), After::Same),
];

/// The rows of clause, meet, infield and inlock.
pub const PARTS: [Row; 31] = [
    (
        "set what a block adopts",
        Step::Clause(PLAIN, 0),
        After::Changed(PLAIN, Held::Block(20, 1, 1, 8, Some(0))),
    ),
    ("set it again", Step::Clause(FOREIGN, 1), After::Same),
    (
        "set it on what is immutable",
        Step::Clause(LEFT, 0),
        After::Same,
    ),
    (
        "adopt what is immutable",
        Step::Clause(PLAIN, 2),
        After::Same,
    ),
    ("adopt no data type", Step::Clause(PLAIN, 9), After::Same),
    (
        "set it on nothing",
        Step::Clause(Held::Block(24, 1, 1, 8, None), 0),
        After::Same,
    ),
    (
        "meet",
        Step::Meet(LEFT, RIGHT),
        After::Two(Held::Equal(1, 13), Held::Equal(12, 14)),
    ),
    (
        "meet what is mutable",
        Step::Meet(LACKING, OTHER),
        After::Same,
    ),
    (
        "meet no constructor's",
        Step::Meet(STRAY, STRAY),
        After::Same,
    ),
    ("meet another name", Step::Meet(LEFT, FULL), After::Same),
    (
        "meet nothing left",
        Step::Meet(Held::Block(11, 2, 9, 9, None), RIGHT),
        After::Same,
    ),
    (
        "meet nothing right",
        Step::Meet(LEFT, Held::Block(11, 2, 9, 9, None)),
        After::Same,
    ),
    (
        "meet an integer",
        Step::Meet(LEFT, Held::Int(1)),
        After::Same,
    ),
    (
        "a field of an adopter",
        Step::Field(ADOPTER, 0, 9),
        After::Changed(ADOPTER, Held::Block(3, 0, 9, 4, Some(1))),
    ),
    (
        "a field of what is immutable",
        Step::Field(FULL, 1, 1),
        After::Added(Held::Block(27, 5, 1, 1, None)),
    ),
    (
        "a field past the last",
        Step::Field(ADOPTER, 2, 9),
        After::Same,
    ),
    (
        "a field that isn't equal",
        Step::Field(ADOPTER, 1, 9),
        After::Same,
    ),
    (
        "a field of nothing",
        Step::Field(Held::Block(24, 1, 1, 8, None), 0, 9),
        After::Same,
    ),
    (
        "the first name in a lock",
        Step::Spot(LOCK, 0, 9),
        After::Added(Held::Lock(16, 9, 1, 2)),
    ),
    (
        "the left of an equation in a lock",
        Step::Spot(LOCK, 1, 9),
        After::Added(Held::Lock(16, 1, 9, 2)),
    ),
    (
        "the last name in a lock",
        Step::Spot(LOCK, 2, 10),
        After::Added(Held::Lock(16, 1, 1, 10)),
    ),
    (
        "a name in a lock that isn't equal",
        Step::Spot(LOCK, 2, 9),
        After::Same,
    ),
    ("past the last name", Step::Spot(LOCK, 3, 9), After::Same),
    (
        "in no lock",
        Step::Spot(Held::Lock(25, 1, 1, 2), 0, 9),
        After::Same,
    ),
    ("in an integer", Step::Spot(Held::Int(1), 0, 9), After::Same),
    (
        "a block in a lock",
        Step::Spot(DEEP, 0, 9),
        After::Added(Held::Deep(26, 9, 1, 1, 1, 1, 1)),
    ),
    (
        "a field in a lock",
        Step::Spot(DEEP, 2, 9),
        After::Added(Held::Deep(26, 1, 1, 9, 1, 1, 1)),
    ),
    (
        "a lock in a lock",
        Step::Spot(DEEP, 3, 9),
        After::Added(Held::Deep(26, 1, 1, 1, 9, 1, 1)),
    ),
    (
        "inside a lock in a lock",
        Step::Spot(DEEP, 4, 9),
        After::Added(Held::Deep(26, 1, 1, 1, 1, 9, 1)),
    ),
    (
        "the last inside a lock in a lock",
        Step::Spot(DEEP, 5, 9),
        After::Added(Held::Deep(26, 1, 1, 1, 1, 1, 9)),
    ),
    ("past all of them", Step::Spot(DEEP, 6, 9), After::Same),
];
