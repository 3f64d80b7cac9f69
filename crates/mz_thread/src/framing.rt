//! Frames that are made: the only acts of a thread that take memory of its own.
ghost use Rattle.std.specs.Prelude.{◌≡◌, ◌+◌, ◌-◌, ◌≤◌, ◌<◌, ◌++◌, ℕ, map, length, slice_get, Some, IfOk, OnOk, OnErr, false, [], ◌∷◌, if◌then◌else◌, ◌==◌};
ghost use Rattle.mz_words.specs.Steps.{is_full, reg, registers_of, zeros, frame_of, calls, enters, ask_act, ask_at, take_at, take_frame, take_step, ask, take_instr, callee_of, first_params};
ghost use Rattle.mz_words.specs.Answers.{May};
ghost use Rattle.mz_words.specs.declared.asks.Ask.TheVariants.{Frames};
ghost use Rattle.mz_words.specs.declared.stages.Stage.TheVariants.{Ready};
ghost use Rattle.mz_thread.specs.Stages.{Small, IsFrame, IsCall, framed, WantsFrame};

use crate::lookups::callee;
use crate::machine::Machine;
use mz_tree::Names;
use mz_words::{Act, Answer, Code, End, Instr, Options, Stage, Start, Waiting};
use sqlite_items::Items;
use std::alloc::AllocError;
use std::mem;

// so many zeros at the end
#[tactic(auto, using(crate::proofs::Frames::zeros_next, crate::proofs::Frames::zeros_end))]
fn add_zeros(regs: &mut Vec<u64>, count: usize) -> Result<(), AllocError>
    ensures { OnOk result (regs.new.items ≡ regs.old.items ++ zeros count) }
{
    for i in 0..count {
        regs.push(0)?;
    }
    Ok(())
}

impl Machine {
    // the values of these registers at the end
    #[tactic(auto, using(crate::proofs::Frames::args_next, crate::proofs::Frames::args_end))]
    fn add_args(&self, regs: &mut Vec<u64>, args: &[u32]) -> Result<(), AllocError>
        ensures { OnOk result (regs.new.items ≡ regs.old.items ++ map (reg self.now) args.now) }
    {
        for i in 0..args.len() {
            regs.push(self.reg(args[i]))?;
        }
        Ok(())
    }

    // the registers of a new frame: the arguments, then zeros
    fn frame(&self, args: &Names, start: Start) -> Result<Items<u64>, AllocError>
        ensures { IfOk result (λ r. r ≡ frame_of (map (reg self.now) args.now) start) }
    {
        let registers = start.registers as usize;
        let mut regs = Vec::with_capacity(self.alloc, registers)?;
        self.add_args(&mut regs, args.as_slice())?;
        let blank = if args.len() <= registers {
            registers - args.len()
        } else {
            0
        };
        add_zeros(&mut regs, blank)?;
        Ok(Items::from_vec(regs))
    }

    // the frame that runs waits, and that of the callee begins. Nothing has changed where memory is wanting
    fn push_call(&mut self, to: u32, args: &Names, start: Start) -> Result<(), AllocError>
        requires at { self.old.at < 18446744073709551615 }
        requires units { self.old.units < 18446744073709551615 }
        requires room { registers_of self.old.below + length self.old.regs < 18446744073709551615 }
        ensures ok { OnOk result (self.new ≡ calls to args.now (Some start) self.old) }
        ensures err { OnErr result (self.new ≡ self.old) }
    {
        let regs = self.frame(args, start)?;
        self.below.reserve(1)?;
        let waiting_regs = mem::replace(&mut self.regs, regs);
        self.deep += waiting_regs.len() as u64;
        self.below.push_reserved(Waiting {
            at: self.at + 1,
            regs: waiting_regs,
            to,
        });
        self.at = start.first as usize;
        self.units += 1;
        self.stage = Stage::Border;
        Ok(())
    }

    // the first frame of the thread of this number
    fn enter(&mut self, actor: u32, arg: u64, start: Start) -> Result<(), AllocError>
        ensures ok { OnOk result (self.new ≡ enters actor arg (Some start) self.old) }
        ensures err { OnErr result (self.new ≡ self.old) }
    {
        let registers = start.registers as usize;
        let mut regs = Vec::with_capacity(self.alloc, registers)?;
        if actor == 0 {
            add_zeros(&mut regs, registers)?;
        } else {
            regs.push(arg)?;
            let blank = if 1 <= registers { registers - 1 } else { 0 };
            add_zeros(&mut regs, blank)?;
        }
        self.regs = Items::from_vec(regs);
        self.at = start.first as usize;
        self.below.clear();
        self.deep = 0;
        self.stage = Stage::Border;
        Ok(())
    }

    // a call, or the end for want of memory
    fn call_or_refuse(&mut self, to: u32, args: &Names, start: Start) -> Answer
        requires at { self.old.at < 18446744073709551615 }
        requires units { self.old.units < 18446744073709551615 }
        requires room { is_full self.old start ≡ false }
        ensures moved { self.new ≡ framed result (calls to args.now (Some start) self.old) self.old }
        ensures may { May (Frames start.registers) result }
    {
        match self.push_call(to, args, start) {
            Ok(()) => Answer::Quiet,
            Err(_) => {
                self.stage = Stage::Closing(End::Memory);
                Answer::Refused
            }
        }
    }

    // a start, or the end for want of memory
    fn enter_or_refuse(&mut self, actor: u32, arg: u64, start: Start) -> Answer
        ensures moved { self.new ≡ framed result (enters actor arg (Some start) self.old) self.old }
        ensures may { May (Frames start.registers) result }
    {
        match self.enter(actor, arg, start) {
            Ok(()) => Answer::Quiet,
            Err(_) => {
                self.stage = Stage::Closing(End::Memory);
                Answer::Refused
            }
        }
    }

    // the frame of a call
    #[tactic(auto, using(crate::proofs::Quiet::call_room))]
    fn call_frame(&mut self, code: &Code, options: &Options, act: &Act) -> Answer
        requires at { self.old.at < 18446744073709551615 }
        requires units { self.old.units < 18446744073709551615 }
        requires frame { IsFrame (ask_act code.now options.now self.old act.now) }
        ensures moved { self.new ≡ framed result (take_frame code.now self.old act.now) self.old }
        ensures may { May (Frames 0) result }
    {
        match act {
            Act::Call {
                to,
                callee: function,
                args,
            } => match callee(code, self.reg(*function), args.as_slice().len()) {
                Some(start) => self.call_or_refuse(*to, args, start),
                None => Answer::Quiet,
            },
            _ => Answer::Quiet,
        }
    }

    // the frame that is asked for at this stage
    #[tactic(auto, using(crate::proofs::Quiet::entering_moved, crate::proofs::Quiet::call_moved))]
    fn staged_frame(&mut self, code: &Code, options: &Options, actor: u32) -> Answer
        requires small { Small self.old }
        requires stage { WantsFrame self.old.stage }
        requires frame { IsFrame (ask_at code.now options.now actor self.old self.old.stage (slice_get code.now.instrs self.old.at)) }
        ensures moved { self.new ≡ take_at code.now options.now actor self.old self.old.stage (slice_get code.now.instrs self.old.at) result }
        ensures may { May (Frames 0) result }
    {
        match self.stage {
            Stage::Entering(function, arg) => {
                let params = if actor == 0 { 0 } else { 1 };
                match callee(code, function, params) {
                    Some(start) => self.enter_or_refuse(actor, arg, start),
                    None => Answer::Quiet,
                }
            }
            Stage::Ready => match self.instr(code) {
                Some(instr) => self.call_frame(code, options, &instr.act),
                None => Answer::Quiet,
            },
            _ => Answer::Quiet,
        }
    }

    /// Makes the frame that is asked for and takes the answer, which it tells.
    #[tactic(auto, using(crate::proofs::Quiet::frame_stage, crate::proofs::Quiet::frame_may), unfolding(mz_words::specs::Steps::take_step, mz_words::specs::Steps::ask))]
    pub fn make_frame(&mut self, code: &Code, options: &Options, actor: u32) -> Answer
        requires small { Small self.old }
        requires frame { IsFrame (ask code.now options.now actor self.old) }
        ensures moved { self.new ≡ take_step code.now options.now actor self.old result }
        ensures may { May (ask code.now options.now actor self.old) result }
    {
        self.staged_frame(code, options, actor)
    }
}
