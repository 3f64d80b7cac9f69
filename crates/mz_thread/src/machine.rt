//! Where a thread stands, as it is kept.
ghost use Rattle.std.specs.Prelude.{◌≡◌, ◌<◌, slice_get, OnSome};
ghost use Rattle.std.specs.Option.{option_copied};
ghost use Rattle.mz_words.specs.Steps.{reg, opening};

use mz_words::{Code, Instr, Stage, Waiting};
use sqlite_items::Items;
use std::alloc::Global;
use std::marker::Model;

/// Where a thread stands in the code of a program, and how far it is. Contracts see it as a `Standing`.
#[derive(Drop)]
pub struct Machine {
    pub(crate) alloc: Global,
    /// The number of its instruction.
    pub(crate) at: usize,
    /// The registers of the frame that runs.
    pub(crate) regs: Items<u64>,
    /// The frames that wait. The innermost, which waits for the frame that runs, is the last.
    pub(crate) below: Vec<Waiting>,
    pub(crate) units: u64,
    /// How many tries have failed since the last entry. The entry that closes the record leaves it.
    pub(crate) lost: u64,
    pub(crate) stage: Stage,
    /// How many registers the frames have that wait.
    pub(crate) deep: u64,
}

impl Model for Machine {
    ghost use Rattle.std.specs.Prelude.{◌≡◌, reverse};
    ghost use Rattle.mz_words.specs.Standing.{Standing};
    ghost use Rattle.mz_words.specs.Steps.{registers_of};

    ghost Value = { Standing };

    ghost view = { λ t. record { at = t.at; regs = t.regs; below = reverse t.below.items; units = t.units; lost = t.lost; stage = t.stage } };

    ghost invariant = { λ t. t.deep ≡ registers_of (reverse t.below.items) };
}

impl Machine {
    /// A thread that hasn't started. It takes no memory.
    pub fn start(alloc: Global) -> Machine
        ensures { result ≡ opening }
    {
        Machine {
            alloc,
            at: 0,
            regs: Items::new(alloc),
            below: Vec::new(alloc),
            units: 0,
            lost: 0,
            stage: Stage::Idle,
            deep: 0,
        }
    }

    /// A register, 0 where there is none.
    pub(crate) fn reg(&self, at: u32) -> u64
        ensures { result ≡ reg self.now at }
    {
        let regs = self.regs.as_slice();
        if (at as usize) < regs.len() {
            regs[at as usize]
        } else {
            0
        }
    }

    /// The instruction at which it is, which isn't copied.
    pub(crate) fn instr<'a>(&self, code: &'a Code) -> Option<&'a Instr>
        ensures is { option_copied result ≡ slice_get code.now.instrs self.now.at }
        ensures room { OnSome result (self.now.at < 18446744073709551615) }
    {
        let _all = code.instrs.len();
        code.instrs.get(self.at)
    }

    /// How many units it has made.
    pub(crate) fn units(&self) -> u64
        ensures { result ≡ self.now.units }
    {
        self.units
    }
}
