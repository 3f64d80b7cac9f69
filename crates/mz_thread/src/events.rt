//! One event of a thread on words.
ghost use Rattle.std.specs.Prelude.{◌≡◌, ◌≢◌, ◌≤◌, ◌<◌, ℕ, List, length, Option, false};
ghost use Rattle.mz_words.specs.Standing.{Standing};
ghost use Rattle.mz_words.specs.Steps.{ask, take_step};
ghost use Rattle.mz_words.specs.Answers.{May, move_of};
ghost use Rattle.mz_words.specs.Replays.{Follows};
ghost use Rattle.mz_words.specs.Views.{WordsView};
ghost use Rattle.mz_words.specs.Turns.{Leads, IsPlaced, IsTold, pauses};
ghost use Rattle.mz_words.specs.declared.asks.Ask.TheVariants.{Nothing};
ghost use Rattle.mz_words.specs.Turns.{answered};
ghost use Rattle.mz_thread.specs.Answered.{LeavesRoom};
ghost use Rattle.mz_thread.specs.Stages.{Small, IsThreadNumber};
ghost use Rattle.mz_thread.specs.Keeping.{Held, MayTurn};
ghost use Rattle.mz_thread.specs.Noted.{IsNoted};
ghost use Rattle.mz_thread.specs.Inside.{Inside};
ghost use Rattle.mz_thread.specs.Measure.{turn_left};

use crate::answering::make_step;
use crate::machine::Machine;
use mz_words::{Answer, Ask, Code, Options, Stage, Words};

// an event: what the thread asks is answered, and the answer is taken
#[tactic(auto, using(crate::proofs::Quiet::frame_ask))]
fn event<W: Words>(
    machine: &mut Machine,
    code: &Code,
    words: &mut W,
    options: &Options,
    actor: u32,
    asked: Ask,
) -> Answer
    requires asked { asked ≡ ask code.now options.now actor machine.old }
    requires placed { IsPlaced (move_of asked) options.now.heap }
    requires small { Small machine.old }
    requires number { IsThreadNumber machine.old.stage }
    requires alive { ask code.now options.now actor machine.old ≢ Nothing }
    requires actor { actor < 64 }
    requires size { (W.sees words.old).size ≡ options.now.heap }
    requires heap { 197 ≤ options.now.heap }
    requires spare { 0 < (W.sees words.old).spare }
    requires lost { (W.sees words.old).lost < 18446744073709551615 }
    ensures moved { machine.new ≡ take_step code.now options.now actor machine.old result }
    ensures may { May (ask code.now options.now actor machine.old) result }
    ensures answered { W.sees words.new ≡ record (answered (ask code.now options.now actor machine.old) result (W.sees words.old)) { spare = (W.sees words.new).spare } }
    ensures told { IsTold (ask code.now options.now actor machine.old) result (W.sees words.old).told }
    ensures rest { W.rest words.new ≡ W.rest words.old }
    ensures spare { LeavesRoom (ask code.now options.now actor machine.old) result (W.sees words.old).spare (W.sees words.new).spare }
{
    if let Ask::Frames(_) = asked {
        return machine.make_frame(code, options, actor);
    }
    let answer = make_step(words, asked);
    machine.take(code, options, actor, answer);
    answer
}

impl Machine {
    // whether a turn that began with `from` units ends here
    #[tactic(auto, unfolding(mz_words::specs::Turns::pauses))]
    fn pauses(&self, options: &Options, from: u64, answer: Answer) -> bool
        ensures { result ≡ pauses options.now from answer self.now }
    {
        match self.stage {
            Stage::Border => match answer {
                Answer::Missed => true,
                _ => from <= self.units && options.quantum as u64 <= self.units - from,
            },
            Stage::Idle => true,
            Stage::Over(_) => true,
            _ => false,
        }
    }
}

/// Makes an event within a turn that began with `from` units: whether it ended the turn. Where it didn't, the end is nearer.
pub(crate) fn goes_on<W: Words>(
    machine: &mut Machine,
    code: &Code,
    words: &mut W,
    options: &Options,
    actor: u32,
    from: u64,
    asked: Ask,
) -> bool
    requires turns { MayTurn code.now options.now actor (W.sees words.old).size }
    requires asked { asked ≡ ask code.now options.now actor machine.old }
    requires placed { IsPlaced (move_of asked) options.now.heap }
    requires own { actor ≡ (W.sees words.old).actor }
    requires follows { Follows code.now options.now actor (W.sees words.old).part machine.old }
    requires inside { Inside options.now machine.old }
    requires held { Held machine.old (W.sees words.old).lost (W.sees words.old).spare }
    requires noted { IsNoted code.now machine.old (W.sees words.old).note (length (W.sees words.old).part) }
    requires alive { ask code.now options.now actor machine.old ≢ Nothing }
    ensures inside { Inside options.now machine.new }
    ensures held { Held machine.new (W.sees words.new).lost (W.sees words.new).spare }
    ensures noted { IsNoted code.now machine.new (W.sees words.new).note (length (W.sees words.new).part) }
    ensures follows { Follows code.now options.now actor (W.sees words.new).part machine.new }
    ensures leads { (first : WordsView) (t : Standing) → Leads code.now options.now actor from first t (W.sees words.old) machine.old false → Leads code.now options.now actor from first t (W.sees words.new) machine.new result }
    ensures actor { (W.sees words.new).actor ≡ (W.sees words.old).actor }
    ensures size { (W.sees words.new).size ≡ (W.sees words.old).size }
    ensures rest { W.rest words.new ≡ W.rest words.old }
    ensures fewer { result ≡ false → turn_left (length code.now.instrs) options.now machine.new < turn_left (length code.now.instrs) options.now machine.old }
{
    let answer = event(machine, code, words, options, actor, asked);
    machine.pauses(options, from, answer)
}
