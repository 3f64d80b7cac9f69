//! What a thread asks next: the definition `ask`, function by function.
ghost use Rattle.std.specs.Prelude.{◌≡◌, map, length, ◌+◌, ◌≤◌, ◌<◌, slice_get};
ghost use Rattle.mz_words.specs.Steps.{reg, ask, ask_act, counted, placed, callee_of, ask_call, ask_spawn, new_word, ask_making, ask_taking, ask_spawning, ask_found, is_full};
ghost use Rattle.mz_words.specs.Turns.{IsPlaced};
ghost use Rattle.mz_words.specs.Answers.{move_of};
ghost use Rattle.mz_words.specs.declared.stages.Stage.TheVariants.{Ready};
ghost use Rattle.mz_words.specs.declared.asks.Ask.TheVariants as asks;
ghost use Rattle.mz_thread.specs.Stages.{IsThreadNumber, ask_inner};

use crate::lookups::{callee, place_at};
use crate::machine::Machine;
use mz_tree::Names;
use mz_words::{Act, Ask, Code, End, Options, Stage, Start, Until};

impl Machine {
    // an act that makes a unit, if the thread has one left
    fn counted(&self, options: &Options, ask: Ask) -> Ask
        requires placed { IsPlaced (move_of ask) options.now.heap }
        ensures asked { result ≡ counted options.now self.now ask }
        ensures placed { IsPlaced (move_of result) options.now.heap }
    {
        if options.steps as u64 <= self.units {
            Ask::Local
        } else {
            ask
        }
    }

    // a load of the word so far behind this place
    fn load_at(&self, options: &Options, base: u64, offset: u64) -> Ask
        ensures asked { result ≡ counted options.now self.now (placed options.now (base + offset) (asks.Loads (base + offset))) }
        ensures placed { IsPlaced (move_of result) options.now.heap }
    {
        match place_at(options, base, offset) {
            Some(place) => self.counted(options, Ask::Loads(place)),
            None => self.counted(options, Ask::Nothing),
        }
    }

    // a store into the word so far behind this place
    fn store_at(&self, options: &Options, base: u64, offset: u64, value: u64) -> Ask
        ensures asked { result ≡ counted options.now self.now (placed options.now (base + offset) (asks.Stores (base + offset) value)) }
        ensures placed { IsPlaced (move_of result) options.now.heap }
    {
        match place_at(options, base, offset) {
            Some(place) => self.counted(options, Ask::Stores(place, value)),
            None => self.counted(options, Ask::Nothing),
        }
    }

    // a load of a word of the block in this register
    fn load_in(&self, options: &Options, block: u32, offset: u64) -> Ask
        ensures asked { result ≡ counted options.now self.now (placed options.now (reg self.now block + offset) (asks.Loads (reg self.now block + offset))) }
        ensures placed { IsPlaced (move_of result) options.now.heap }
    {
        self.load_at(options, self.reg(block), offset)
    }

    // a store into a word of the block in this register
    fn store_in(&self, options: &Options, block: u32, offset: u64, value: u64) -> Ask
        ensures asked { result ≡ counted options.now self.now (placed options.now (reg self.now block + offset) (asks.Stores (reg self.now block + offset) value)) }
        ensures placed { IsPlaced (move_of result) options.now.heap }
    {
        self.store_at(options, self.reg(block), offset, value)
    }

    // a try of the lock in this register
    fn try_in(&self, options: &Options, lock: u32) -> Ask
        ensures asked { result ≡ counted options.now self.now (placed options.now (reg self.now lock) (asks.Tries (reg self.now lock))) }
        ensures placed { IsPlaced (move_of result) options.now.heap }
    {
        match place_at(options, self.reg(lock), 0) {
            Some(place) => self.counted(options, Ask::Tries(place)),
            None => self.counted(options, Ask::Nothing),
        }
    }

    // whether the registers of all frames would be too many with those of the callee
    fn is_full(&self, start: Start) -> bool
        ensures { result ≡ is_full self.now start }
    {
        1048576 < self.deep
            || 1048576 < self.regs.as_slice().len() as u64 + self.deep + start.registers as u64
    }

    // a frame for a call
    fn ask_call(&self, code: &Code, function: u32, args: &Names) -> Ask
        ensures { result ≡ ask_call self.now (callee_of code.now (reg self.now function) (length args.now)) }
    {
        match callee(code, self.reg(function), args.len()) {
            None => Ask::Nothing,
            Some(start) => {
                if self.is_full(start) {
                    Ask::Local
                } else {
                    Ask::Frames(start.registers)
                }
            }
        }
    }

    // the words of a new block
    fn ask_new(&self, options: &Options, fields: &Names) -> Ask
        requires heap { 197 ≤ options.now.heap }
        ensures asked { result ≡ counted options.now self.now (asks.Adds 0 (length fields.now + 2)) }
        ensures placed { IsPlaced (move_of result) options.now.heap }
    {
        self.counted(options, Ask::Adds(0, fields.as_slice().len() as u64 + 2))
    }

    // the number of a new thread
    fn ask_spawn(&self, code: &Code, function: u32) -> Ask
        ensures { result ≡ ask_spawn (callee_of code.now (reg self.now function) 1) }
    {
        match callee(code, self.reg(function), 1) {
            Some(_) => Ask::Adds(1, 1),
            None => Ask::Nothing,
        }
    }

    // the first step of an instruction
    fn ask_act(&self, code: &Code, options: &Options, act: &Act) -> Ask
        requires heap { 197 ≤ options.now.heap }
        ensures asked { result ≡ ask_act code.now options.now self.now act.now }
        ensures placed { IsPlaced (move_of result) options.now.heap }
    {
        match act {
            Act::Const { .. } => Ask::Local,
            Act::Copy { .. } => Ask::Local,
            Act::Arith { .. } => Ask::Local,
            Act::New { fields, .. } => self.ask_new(options, fields),
            Act::Read { block, field, .. } => self.load_in(options, *block, 2 + *field as u64),
            Act::Write {
                block,
                field,
                from,
                ..
            } => self.store_in(options, *block, 2 + *field as u64, self.reg(*from)),
            Act::Retag { block, con, .. } => self.store_in(options, *block, 0, *con as u64 + 1),
            Act::Switch { block, .. } => self.load_in(options, *block, 0),
            Act::Branch { .. } => Ask::Local,
            Act::Jump { .. } => Ask::Local,
            Act::Call { callee, args, .. } => self.counted(
                options,
                self.ask_call(code, *callee, args),
            ),
            Act::Return { .. } => Ask::Local,
            Act::Give { block, adopter, .. } => self.store_in(
                options,
                *block,
                1,
                self.reg(*adopter),
            ),
            Act::Take { block, .. } => self.load_in(options, *block, 1),
            Act::NewLock { .. } => self.counted(options, Ask::Adds(0, 1)),
            Act::Acquire { lock, .. } => self.try_in(options, *lock),
            Act::Release { lock, .. } => self.store_in(options, *lock, 0, 0),
            Act::Spawn { callee, .. } => self.counted(options, self.ask_spawn(code, *callee)),
            Act::Print { from, .. } => self.counted(options, Ask::Prints(self.reg(*from))),
        }
    }

    // the i-th word of a new block
    fn field_word(&self, con: u32, fields: &Names, i: u64) -> u64
        ensures { result ≡ new_word con (map (reg self.now) fields.now) i }
    {
        if i == 0 {
            con as u64 + 1
        } else if i == 1 {
            0
        } else {
            match fields.get(i as usize - 2) {
                Some(field) => self.reg(*field),
                None => 0,
            }
        }
    }

    // the store of the i-th word of what is made
    fn ask_making(&self, options: &Options, act: &Act, base: u64, i: u64) -> Ask
        ensures asked { result ≡ ask_making options.now self.now act.now base i }
        ensures placed { IsPlaced (move_of result) options.now.heap }
    {
        match act {
            Act::New { con, fields, .. } => self.store_at(
                options,
                base,
                i,
                self.field_word(*con, fields, i),
            ),
            Act::NewLock { .. } => self.store_at(options, base, i, 0),
            _ => Ask::Nothing,
        }
    }

    // the store that clears the adopter which a take saw
    fn ask_taking(&self, options: &Options, act: &Act) -> Ask
        ensures asked { result ≡ ask_taking options.now self.now act.now }
        ensures placed { IsPlaced (move_of result) options.now.heap }
    {
        match act {
            Act::Take { block, .. } => self.store_at(options, self.reg(*block), 1, 0),
            _ => Ask::Nothing,
        }
    }

    // the steps of a spawn behind the drawing of a number
    fn ask_spawning(&self, options: &Options, act: &Act, number: u64, i: u64) -> Ask
        requires heap { 197 ≤ options.now.heap }
        requires number { number < 64 }
        ensures asked { result ≡ ask_spawning options.now self.now act.now number i }
        ensures placed { IsPlaced (move_of result) options.now.heap }
    {
        match act {
            Act::Spawn { callee, arg, .. } => {
                let ask = if i == 0 {
                    Ask::Adds(2, 1)
                } else if i == 1 {
                    Ask::Stores(6 + 3 * number as u32, self.reg(*callee))
                } else if i == 2 {
                    Ask::Stores(7 + 3 * number as u32, self.reg(*arg))
                } else {
                    Ask::Stores(5 + 3 * number as u32, 1)
                };
                self.counted(options, ask)
            }
            _ => Ask::Nothing,
        }
    }

    // the first step of the instruction at which the thread is
    fn ask_ready(&self, code: &Code, options: &Options) -> Ask
        requires heap { 197 ≤ options.now.heap }
        ensures asked { result ≡ ask_found code.now options.now self.now Ready (slice_get code.now.instrs self.now.at) }
        ensures placed { IsPlaced (move_of result) options.now.heap }
    {
        match self.instr(code) {
            Some(instr) => self.ask_act(code, options, &instr.act),
            None => Ask::Nothing,
        }
    }

    // a step inside the instruction at which the thread is
    fn ask_inside(&self, code: &Code, options: &Options) -> Ask
        requires heap { 197 ≤ options.now.heap }
        requires number { IsThreadNumber self.now.stage }
        ensures asked { result ≡ ask_inner code.now options.now self.now self.now.stage }
        ensures placed { IsPlaced (move_of result) options.now.heap }
    {
        match self.instr(code) {
            Some(instr) => match self.stage {
                Stage::Making(base, i) => self.ask_making(options, &instr.act, base, i),
                Stage::Taking => self.ask_taking(options, &instr.act),
                Stage::Spawning(number, i) => self.ask_spawning(options, &instr.act, number, i),
                _ => Ask::Nothing,
            },
            None => Ask::Nothing,
        }
    }

    /// What the thread of this number asks next. It takes no memory.
    #[tactic(auto, unfolding(mz_words::specs::Steps::ask))]
    pub fn ask(&self, code: &Code, options: &Options, actor: u32) -> Ask
        requires heap { 197 ≤ options.now.heap }
        requires actor { actor < 64 }
        requires number { IsThreadNumber self.now.stage }
        ensures asked { result ≡ ask code.now options.now actor self.now }
        ensures placed { IsPlaced (move_of result) options.now.heap }
    {
        match self.stage {
            Stage::Border => match self.instr(code) {
                Some(_) => Ask::Looks(3, Until::NotZero),
                None => Ask::Nothing,
            },
            Stage::Ready => self.ask_ready(code, options),
            Stage::Idle => Ask::Looks(5 + 3 * actor, Until::NotZero),
            Stage::IdleStop => Ask::Looks(3, Until::NotZero),
            Stage::IdleLive => Ask::Looks(2, Until::Zero),
            Stage::LoadFun => Ask::Starts(6 + 3 * actor),
            Stage::LoadArg(_) => Ask::Starts(7 + 3 * actor),
            Stage::Entering(function, _) => {
                let params = if actor == 0 { 0 } else { 1 };
                match callee(code, function, params) {
                    Some(start) => Ask::Frames(start.registers),
                    None => Ask::Nothing,
                }
            }
            Stage::Closing(end) => match end {
                End::Done => Ask::Leaves,
                _ => Ask::Stops,
            },
            Stage::Over(_) => Ask::Nothing,
            Stage::Unmatched => Ask::Nothing,
            _ => self.ask_inside(code, options),
        }
    }
}
