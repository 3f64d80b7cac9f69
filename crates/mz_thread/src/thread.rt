//! A thread, which makes turns.
ghost use Rattle.std.specs.Prelude.{◌≡◌, Bool, length, MatchOption};
ghost use Rattle.mz_words.specs.declared.stages.Stage.TheVariants.{Over};
ghost use Rattle.mz_words.specs.Steps.{opening};
ghost use Rattle.mz_words.specs.Turns.{Leads};
ghost use Rattle.mz_words.specs.Replays.{Follows};
ghost use Rattle.mz_thread.specs.Keeping.{MayTurn, Held, IsOver};
ghost use Rattle.mz_thread.specs.Turned.{Turned, AnswersAs, LostAs};
ghost use Rattle.mz_thread.specs.Noted.{IsNoted};

use crate::machine::Machine;
use crate::turns::run;
use mz_words::{Code, End, Options, Stage, Words};
use std::alloc::Global;

/// How a turn ended.
#[derive(Clone, Copy, Debug, PartialEq, Eq)]
pub enum Turn {
    /// The thread goes on in another turn.
    Again,
    /// It is over, with this end.
    Ended(End),
    /// What it would do next is wild: it needs a place outside of the words, or a function that there isn't, or it saw a tag
    /// that no case has, or there is no instruction.
    Wild,
}

/// A thread of a run.
#[derive(Drop)]
pub struct Thread {
    actor: u32,
    machine: Machine,
}

impl Thread {
    /// A thread of this number that hasn't started: where an empty record leaves it. It takes no memory.
    pub fn start(alloc: Global, actor: u32) -> Thread
        ensures number { result.actor ≡ actor }
        ensures opening { result.machine ≡ opening }
    {
        Thread {
            actor,
            machine: Machine::start(alloc),
        }
    }

    /// How it ended, where it is over. It takes no memory.
    pub fn end(&self) -> Option<End>
        ensures { MatchOption result (IsOver self.now.machine.stage → ⊥) (λ e. self.now.machine.stage ≡ Over e) }
    {
        self.machine.end()
    }

    /// How many tries had failed since its last entry but the closing one, or have now where its record isn't closed. It takes no
    /// memory.
    pub fn lost(&self) -> u64
        ensures { result ≡ self.now.machine.lost }
    {
        self.machine.lost
    }

    /// Makes a turn: events up to the first border behind `quantum` units, failed try, idle look or end.
    ///
    /// The words are those of the actor with the thread's number, whose record leaves the thread where it is, and have room for
    /// the entries of its start and its end. So they are after the turn, too. A turn takes memory only for entries of
    /// instructions, for the first frame of a thread that starts, and for the frame of a call. A thread that is over stays so, and
    /// tells its end again.
    #[tactic(auto, using(crate::proofs::Ending::lost_as))]
    pub fn turn<W: Words>(&mut self, code: &Code, words: &mut W, options: &Options) -> Turn
        requires turns { MayTurn code.now options.now self.old.actor (W.sees words.old).size }
        requires own { self.old.actor ≡ (W.sees words.old).actor }
        requires follows { Follows code.now options.now self.old.actor (W.sees words.old).part self.old.machine }
        requires held { Held self.old.machine (W.sees words.old).lost (W.sees words.old).spare }
        requires noted { IsNoted code.now self.old.machine (W.sees words.old).note (length (W.sees words.old).part) }
        ensures follows { Follows code.now options.now self.old.actor (W.sees words.new).part self.new.machine }
        ensures leads { (paused : Bool) × Leads code.now options.now self.old.actor self.old.machine.units (W.sees words.old) self.old.machine (W.sees words.new) self.new.machine paused × Turned code.now options.now self.old.actor self.new.machine paused result }
        ensures lost { LostAs options.now result self.new.machine.lost }
        ensures held { Held self.new.machine (W.sees words.new).lost (W.sees words.new).spare }
        ensures noted { IsNoted code.now self.new.machine (W.sees words.new).note (length (W.sees words.new).part) }
        ensures over { IsOver self.old.machine.stage → (self.new.machine ≡ self.old.machine) × (W.sees words.new ≡ W.sees words.old) }
        ensures number { self.new.actor ≡ self.old.actor }
        ensures actor { (W.sees words.new).actor ≡ (W.sees words.old).actor }
        ensures size { (W.sees words.new).size ≡ (W.sees words.old).size }
        ensures rest { W.rest words.new ≡ W.rest words.old }
    {
        if let Some(end) = self.machine.end() {
            return Turn::Ended(end);
        }
        let actor = self.actor;
        let paused = run(&mut self.machine, code, words, options, actor);
        self.machine.told(paused)
    }
}

impl Machine {
    // the end, of a thread that is over
    fn end(&self) -> Option<End>
        ensures { MatchOption result (IsOver self.now.stage → ⊥) (λ e. self.now.stage ≡ Over e) }
    {
        match self.stage {
            Stage::Over(end) => Some(end),
            _ => None,
        }
    }

    // how the turn ended, by whether its last event ended it
    fn told(&self, paused: bool) -> Turn
        ensures { AnswersAs self.now.stage paused result }
    {
        match self.stage {
            Stage::Over(end) => Turn::Ended(end),
            _ => { if paused { Turn::Again } else { Turn::Wild } }
        }
    }
}
