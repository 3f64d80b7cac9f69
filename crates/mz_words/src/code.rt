//! Code: the instructions of all functions, one behind the other, and where each function begins.
use mz_tree::{Arith, Names, Place};
use sqlite_items::Items;

/// Instructions, in order; the first is number 0.
pub type Instrs = Items<Instr>;

/// Where the functions begin, by their numbers.
pub type Entries = Items<Start>;

/// What an instruction does. Its registers are numbers of the frame's registers: the core names of the function. `to` gets
/// the result, 0 where there is none to speak of. A block stands at an address: its tag, which is the number of its
/// constructor plus 1, its adopter, and its fields. A lock is one word, 0 where it is free.
#[derive(Drop)]
pub enum Act {
    /// A number; the number of a function is one, too.
    Const {
        to: u32,
        value: u64,
    },
    Copy {
        to: u32,
        from: u32,
    },
    /// Arithmetic or a comparison, which gives 1 or 0.
    Arith {
        to: u32,
        op: Arith,
        left: u32,
        right: u32,
    },
    /// A new block. Its words are drawn, and then the tag, the adopter 0 and each field are stored.
    New {
        to: u32,
        con: u32,
        fields: Names,
    },
    Read {
        to: u32,
        block: u32,
        con: u32,
        field: u32,
    },
    Write {
        to: u32,
        block: u32,
        con: u32,
        field: u32,
        from: u32,
    },
    /// The tag becomes that of another constructor.
    Retag {
        to: u32,
        block: u32,
        from: u32,
        con: u32,
    },
    /// A jump by the tag, to the target of the constructor that has it.
    Switch {
        block: u32,
        cons: Names,
        targets: Names,
    },
    /// A jump where the register is 0.
    Branch {
        test: u32,
        zero: u32,
    },
    Jump {
        target: u32,
    },
    Call {
        to: u32,
        callee: u32,
        args: Names,
    },
    Return {
        from: u32,
    },
    /// The adopter of the block is stored.
    Give {
        to: u32,
        block: u32,
        adopter: u32,
    },
    /// The adopter of the block is loaded, and cleared where it is this one.
    Take {
        to: u32,
        block: u32,
        adopter: u32,
    },
    NewLock {
        to: u32,
    },
    /// Tries to set the lock from 0 to 1, until it does.
    Acquire {
        to: u32,
        lock: u32,
    },
    Release {
        to: u32,
        lock: u32,
    },
    /// A new thread. Its number is drawn, it is counted as alive, its function and its argument are stored, and last that
    /// it may start.
    Spawn {
        to: u32,
        callee: u32,
        arg: u32,
    },
    Print {
        to: u32,
        from: u32,
    },
}

/// An instruction, with the place of its command in the source.
#[derive(Drop)]
pub struct Instr {
    pub place: Place,
    pub act: Act,
}

/// A function: the number of its first instruction, of its parameters and of its registers.
#[derive(Clone, Copy, Debug, PartialEq, Eq)]
pub struct Start {
    pub first: u32,
    pub params: u32,
    pub registers: u32,
}

/// The code of a program.
#[derive(Drop)]
pub struct Code {
    pub instrs: Instrs,
    pub entries: Entries,
    /// The number of the function `main`.
    pub main: u32,
}
