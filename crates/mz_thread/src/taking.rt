//! Where an answer leads a thread.
ghost use Rattle.std.specs.Prelude.{◌≡◌, ◌≢◌, ◌+◌, ◌≤◌, ◌<◌, ℕ, length, slice_set, slice_get, Some, None, true};
ghost use Rattle.std.specs.Option.{option_copied};
ghost use Rattle.mz_words.specs.Steps.{stop, gives, goes_to, unit_at, gives_or, returns, full_or_spent, take_local, switched, take_saw, made_one, take_done, spawned_one, missed_one, take_instr, take_found, take_step, ask_act, ask_at, ask_found};
ghost use Rattle.mz_words.specs.declared.stages.Stage.TheVariants.{Ready, Border};
ghost use Rattle.mz_thread.specs.Stages.{Small, IsFrame, IsInside, IsAtInstr, drew, stored_one};

use crate::lookups::{find_case, result_of};
use crate::machine::Machine;
use mz_tree::Place;
use mz_words::{Act, Answer, Code, End, Instr, Options, Stage, Waiting};

impl Machine {
    // the record is to be closed with this end
    fn stop(&mut self, end: End)
        ensures { self.new ≡ stop end self.old }
    {
        self.stage = Stage::Closing(end);
    }

    // sets a register, where there is one
    fn set_reg(&mut self, to: u32, value: u64)
        ensures { self.new ≡ record self.old { regs = slice_set self.old.regs to value } }
    {
        if (to as usize) < self.regs.len() {
            self.regs.set(to as usize, value);
        }
    }

    // gives a result, and goes on behind the instruction
    fn gives(&mut self, to: u32, value: u64)
        requires at { self.old.at < 18446744073709551615 }
        ensures { self.new ≡ gives to value self.old }
    {
        self.set_reg(to, value);
        self.at += 1;
        self.stage = Stage::Border;
    }

    // goes on at a target
    fn goes_to(&mut self, target: u32)
        ensures { self.new ≡ goes_to target self.old }
    {
        self.at = target as usize;
        self.stage = Stage::Border;
    }

    // a unit was made
    fn unit_at(&mut self, stage: Stage)
        requires units { self.old.units < 18446744073709551615 }
        ensures { self.new ≡ unit_at stage self.old }
    {
        self.units += 1;
        self.lost = 0;
        self.stage = stage;
    }

    // the frame that waits gets the result. Without one the thread is done
    fn returns(&mut self, value: u64)
        ensures { self.new ≡ returns value self.old.below self.old }
    {
        match self.below.pop() {
            None => self.stage = Stage::Closing(End::Done),
            Some(waiting) => {
                let Waiting { at, regs, to } = waiting;
                self.deep -= regs.as_slice().len() as u64;
                self.regs = regs;
                self.at = at;
                self.stage = Stage::Border;
                self.set_reg(to, value);
            }
        }
    }

    // an act without a step; of any other act, the thread had no unit left or its stack was full
    fn take_local(&mut self, options: &Options, place: Place, act: &Act)
        requires at { self.old.at < 18446744073709551615 }
        ensures { self.new ≡ take_local options.now place self.old act.now }
    {
        match act {
            Act::Const { to, value } => self.gives(*to, *value),
            Act::Copy { to, from } => {
                let value = self.reg(*from);
                self.gives(*to, value)
            }
            Act::Arith {
                to,
                op,
                left,
                right,
            } => match result_of(*op, self.reg(*left), self.reg(*right)) {
                Some(value) => self.gives(*to, value),
                None => self.stop(End::Arith(place)),
            },
            Act::Branch { test, zero } => {
                if self.reg(*test) == 0 {
                    self.goes_to(*zero)
                } else {
                    self.at += 1;
                    self.stage = Stage::Border;
                }
            }
            Act::Jump { target } => self.goes_to(*target),
            Act::Return { from } => {
                let value = self.reg(*from);
                self.returns(value)
            }
            Act::Call { .. } => {
                if options.steps as u64 <= self.units {
                    self.stop(End::Spent)
                } else {
                    self.stop(End::StackFull(place))
                }
            }
            _ => self.stop(End::Spent),
        }
    }

    // the words of a block or a lock were drawn
    fn drew(&mut self, options: &Options, place: Place, base: u64, words: u64)
        requires units { self.old.units < 18446744073709551615 }
        ensures { self.new ≡ drew options.now place base words self.old }
    {
        let heap = options.heap as u64;
        if base <= heap && words <= heap - base {
            self.unit_at(Stage::Making(base, 0))
        } else {
            self.unit_at(Stage::Ready);
            self.stop(End::HeapFull(place))
        }
    }

    // a unit was made, and gives the result of the instruction
    fn unit_gives(&mut self, to: u32, value: u64)
        requires at { self.old.at < 18446744073709551615 }
        requires units { self.old.units < 18446744073709551615 }
        ensures { self.new ≡ gives to value (unit_at Ready self.old) }
    {
        self.unit_at(Stage::Ready);
        self.gives(to, value)
    }

    // what the first step of an instruction saw
    fn take_saw(&mut self, options: &Options, place: Place, act: &Act, seen: u64)
        requires at { self.old.at < 18446744073709551615 }
        requires units { self.old.units < 18446744073709551615 }
        ensures { self.new ≡ take_saw options.now place self.old act.now seen }
    {
        match act {
            Act::New { fields, .. } => self.drew(
                options,
                place,
                seen,
                fields.as_slice().len() as u64 + 2,
            ),
            Act::NewLock { .. } => self.drew(options, place, seen, 1),
            Act::Read { to, .. } => self.unit_gives(*to, seen),
            Act::Write { to, .. } => self.unit_gives(*to, 0),
            Act::Retag { to, .. } => self.unit_gives(*to, 0),
            Act::Switch { cons, targets, .. } => match find_case(
                cons.as_slice(),
                targets.as_slice(),
                seen,
            ) {
                Some(target) => {
                    self.unit_at(Stage::Border);
                    self.goes_to(target)
                }
                None => self.unit_at(Stage::Unmatched),
            },
            Act::Give { to, .. } => self.unit_gives(*to, 0),
            Act::Take { adopter, .. } => {
                if seen == self.reg(*adopter) {
                    self.unit_at(Stage::Taking)
                } else {
                    self.unit_at(Stage::Ready);
                    self.stop(End::TakeFailed(place))
                }
            }
            Act::Acquire { to, .. } => self.unit_gives(*to, 0),
            Act::Release { to, .. } => self.unit_gives(*to, 0),
            Act::Spawn { .. } => {
                if seen < 64 {
                    self.unit_at(Stage::Spawning(seen, 0))
                } else {
                    self.unit_at(Stage::Ready);
                    self.stop(End::ThreadsFull(place))
                }
            }
            Act::Print { to, .. } => self.unit_gives(*to, 0),
            _ => {}
        }
    }

    // one more word of what is made is stored
    fn made_one(&mut self, act: &Act, base: u64, i: u64)
        requires at { self.old.at < 18446744073709551615 }
        requires units { self.old.units < 18446744073709551615 }
        requires i { i < 18446744073709551615 }
        ensures { self.new ≡ made_one self.old act.now base i }
    {
        match act {
            Act::New { to, fields, .. } => self.stored_one(
                *to,
                base,
                i,
                fields.as_slice().len() as u64 + 2,
            ),
            Act::NewLock { to } => self.stored_one(*to, base, i, 1),
            _ => self.stored_one(0, base, i, 0),
        }
    }

    // one more word of so many is stored
    fn stored_one(&mut self, to: u32, base: u64, i: u64, words: u64)
        requires at { self.old.at < 18446744073709551615 }
        requires units { self.old.units < 18446744073709551615 }
        requires i { i < 18446744073709551615 }
        ensures { self.new ≡ stored_one to base i words self.old }
    {
        if i + 1 == words {
            self.unit_gives(to, base)
        } else {
            self.unit_at(Stage::Making(base, i + 1))
        }
    }

    // the adopter is cleared
    fn take_done(&mut self, act: &Act)
        requires at { self.old.at < 18446744073709551615 }
        requires units { self.old.units < 18446744073709551615 }
        ensures { self.new ≡ take_done self.old act.now }
    {
        match act {
            Act::Take { to, .. } => self.unit_gives(*to, 0),
            _ => {}
        }
    }

    // one more step of a spawn is made
    fn spawned_one(&mut self, act: &Act, number: u64, i: u64)
        requires at { self.old.at < 18446744073709551615 }
        requires units { self.old.units < 18446744073709551615 }
        requires i { i < 18446744073709551615 }
        ensures { self.new ≡ spawned_one self.old act.now number i }
    {
        match act {
            Act::Spawn { to, .. } => {
                if i == 3 {
                    self.unit_gives(*to, 0)
                } else {
                    self.unit_at(Stage::Spawning(number, i + 1))
                }
            }
            _ => {}
        }
    }

    // a try failed
    fn missed_one(&mut self, options: &Options, place: Place)
        requires lost { self.old.lost < 18446744073709551615 }
        ensures { self.new ≡ missed_one options.now place self.old }
    {
        self.lost += 1;
        self.stage = if self.lost == options.tries as u64 {
            Stage::Closing(End::Blocked(place))
        } else {
            Stage::Border
        };
    }

    // the answer to the first step of an instruction
    #[tactic(auto, using(crate::proofs::Quiet::quiet_local))]
    fn take_ready(&mut self, code: &Code, options: &Options, instr: &Instr, answer: Answer)
        requires at { self.old.at < 18446744073709551615 }
        requires small { Small self.old }
        requires plain { IsFrame (ask_act code.now options.now self.old instr.now.act) → ⊥ }
        ensures { self.new ≡ take_instr code.now options.now self.old Ready instr.now answer }
    {
        match answer {
            Answer::Saw(seen) => self.take_saw(options, instr.place, &instr.act, seen),
            Answer::Quiet => self.take_local(options, instr.place, &instr.act),
            Answer::Missed => self.missed_one(options, instr.place),
            Answer::Refused => self.stop(End::Memory),
        }
    }

    // the answer to a step inside an instruction
    fn take_inside(&mut self, code: &Code, options: &Options, instr: &Instr, answer: Answer)
        requires at { self.old.at < 18446744073709551615 }
        requires small { Small self.old }
        requires inside { IsInside self.old.stage }
        ensures { self.new ≡ take_instr code.now options.now self.old self.old.stage instr.now answer }
    {
        match answer {
            Answer::Saw(_) => match self.stage {
                Stage::Making(base, i) => self.made_one(&instr.act, base, i),
                Stage::Taking => self.take_done(&instr.act),
                Stage::Spawning(number, i) => self.spawned_one(&instr.act, number, i),
                _ => {}
            },
            Answer::Quiet => self.stop(End::Spent),
            Answer::Missed => {}
            Answer::Refused => self.stop(End::Memory),
        }
    }

    // the answer to what is asked at an instruction
    fn take_at_instr(&mut self, code: &Code, options: &Options, answer: Answer)
        requires small { Small self.old }
        requires inside { IsAtInstr self.old.stage }
        requires plain { IsFrame (ask_found code.now options.now self.old self.old.stage (slice_get code.now.instrs self.old.at)) → ⊥ }
        ensures { self.new ≡ take_found code.now options.now self.old self.old.stage (slice_get code.now.instrs self.old.at) answer }
    {
        match self.instr(code) {
            None => {}
            Some(instr) => match self.stage {
                Stage::Border => match answer {
                    Answer::Saw(_) => {
                        self.lost = 0;
                        self.stage = Stage::Over(End::Halted);
                    }
                    Answer::Quiet => self.stage = Stage::Ready,
                    _ => {}
                },
                Stage::Ready => self.take_ready(code, options, instr, answer),
                _ => self.take_inside(code, options, instr, answer),
            },
        }
    }

    /// Takes an answer of the words, to all but a frame. It takes no memory.
    #[tactic(auto, using(crate::proofs::Quiet::enters_none), unfolding(mz_words::specs::Steps::take_step))]
    pub fn take(&mut self, code: &Code, options: &Options, actor: u32, answer: Answer)
        requires small { Small self.old }
        requires plain { IsFrame (ask_at code.now options.now actor self.old self.old.stage (slice_get code.now.instrs self.old.at)) → ⊥ }
        ensures { self.new ≡ take_step code.now options.now actor self.old answer }
    {
        match self.stage {
            Stage::Idle => match answer {
                Answer::Saw(_) => self.stage = Stage::LoadFun,
                Answer::Quiet => self.stage = Stage::IdleStop,
                _ => {}
            },
            Stage::IdleStop => match answer {
                Answer::Saw(_) => self.stage = Stage::Over(End::Halted),
                Answer::Quiet => self.stage = Stage::IdleLive,
                _ => {}
            },
            Stage::IdleLive => match answer {
                Answer::Saw(_) => self.stage = Stage::Over(End::NeverStarted),
                Answer::Quiet => self.stage = Stage::Idle,
                _ => {}
            },
            Stage::LoadFun => {
                if let Answer::Saw(function) = answer {
                    self.stage = Stage::LoadArg(function);
                }
            }
            Stage::LoadArg(function) => {
                if let Answer::Saw(arg) = answer {
                    self.stage = Stage::Entering(function, arg);
                }
            }
            Stage::Entering(_, _) => {
                if let Answer::Refused = answer {
                    self.stop(End::Memory)
                }
            }
            Stage::Closing(end) => {
                if let Answer::Saw(_) = answer {
                    self.stage = Stage::Over(end);
                }
            }
            Stage::Over(_) => {}
            Stage::Unmatched => {}
            _ => self.take_at_instr(code, options, answer),
        }
    }
}
