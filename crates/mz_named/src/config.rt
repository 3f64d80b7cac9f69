//! Configurations as they are kept.
ghost use Rattle.std.specs.Prelude.{◌≤◌, length};

use mz_tree::Commands;
use sqlite_items::Items;

/// The value of a name.
#[derive(Clone, Copy, Debug, PartialEq, Eq)]
pub enum Value {
    /// A whole number; `()` is 0.
    Int(u64),
    /// A block or a lock, by its name.
    Block(u32),
    /// A function, by its number.
    Fun(u32),
}

/// What stands at a name.
#[derive(Drop)]
pub enum Cell {
    /// A block: its constructor, its adopter, if it has one, and the values of its fields.
    Block {
        con: u32,
        adopter: Option<u32>,
        fields: Items<Value>,
    },
    /// A lock: whether it is held.
    Lock {
        held: bool,
    },
}

/// What is left of a body: its commands from number `next` on, and the name of its value.
#[derive(Drop)]
pub struct Rest {
    pub commands: Commands,
    pub next: usize,
    pub value: u32,
}

/// A body round a branch: the name that gets the branch's value, and what is left behind it.
#[derive(Drop)]
pub struct Level {
    pub to: u32,
    pub after: Rest,
}

/// A body in the middle of its run: the values of its names, where one past the last is 0, what is left of it, and what
/// is left of each body round it, the outermost first.
#[derive(Drop)]
pub struct Frame {
    pub values: Items<Value>,
    pub rest: Rest,
    pub outer: Vec<Level>,
}

/// A frame that waits for a call, whose value gets the name `to`.
#[derive(Drop)]
pub struct Suspended {
    pub to: u32,
    pub frame: Frame,
}

/// A thread: the frame in which it runs and those that wait for it, the outermost first; or it has ended or stopped.
#[derive(Drop)]
pub enum Thread {
    Running { top: Frame, below: Vec<Suspended> },
    Ended,
    Stopped,
}

/// A configuration of the named machine: blocks and locks, each named by its place, threads by their numbers, and what
/// was printed, in order.
#[derive(Drop)]
pub struct NamedConfig {
    pub(crate) cells: Vec<Cell>,
    pub(crate) threads: Vec<Thread>,
    pub(crate) prints: Items<u64>,
    ghost few_cells: { length cells.items ≤ 4294967295 },
    ghost few_threads: { length threads.items ≤ 4294967295 },
}

impl NamedConfig {
    ghost use Rattle.std.specs.Prelude.{◌≡◌, length};
    ghost use Rattle.mz_named.specs.View.{plain_config};

    /// How many threads there are, those that have ended or stopped among them. It takes no memory.
    pub fn threads(&self) -> u32
        ensures { result ≡ length (plain_config self.now).threads }
    {
        self.threads.len() as u32
    }

    /// How many blocks and locks there are: their names are the numbers below it. It takes no memory.
    pub fn blocks(&self) -> u32
        ensures { result ≡ (plain_config self.now).heap.limit }
    {
        self.cells.len() as u32
    }

    /// What was printed, in order. It takes no memory.
    pub fn prints(&self) -> &[u64]
        ensures { result.now ≡ (plain_config self.now).prints }
    {
        self.prints.as_slice()
    }
}
