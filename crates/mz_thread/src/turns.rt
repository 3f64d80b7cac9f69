//! Events up to the end of a turn.
ghost use Rattle.std.specs.Prelude.{◌≡◌, length, false};
ghost use Rattle.mz_words.specs.Steps.{ask};
ghost use Rattle.mz_words.specs.Turns.{Leads};
ghost use Rattle.mz_words.specs.Replays.{Follows};
ghost use Rattle.mz_words.specs.declared.asks.Ask.TheVariants.{Nothing};
ghost use Rattle.mz_thread.specs.Keeping.{Held, MayTurn};
ghost use Rattle.mz_thread.specs.Inside.{Inside};
ghost use Rattle.mz_thread.specs.Noted.{IsNoted};

use crate::events::goes_on;
use crate::machine::Machine;
use mz_words::{Ask, Code, Options, Words};

/// Makes events until one of them ends the turn, or the thread asks nothing. Whether one did.
#[tactic(auto, using(crate::proofs::Steps::number))]
pub(crate) fn run<W: Words>(
    machine: &mut Machine,
    code: &Code,
    words: &mut W,
    options: &Options,
    actor: u32,
) -> bool
    requires turns { MayTurn code.now options.now actor (W.sees words.old).size }
    requires own { actor ≡ (W.sees words.old).actor }
    requires follows { Follows code.now options.now actor (W.sees words.old).part machine.old }
    requires held { Held machine.old (W.sees words.old).lost (W.sees words.old).spare }
    requires noted { IsNoted code.now machine.old (W.sees words.old).note (length (W.sees words.old).part) }
    ensures follows { Follows code.now options.now actor (W.sees words.new).part machine.new }
    ensures leads { Leads code.now options.now actor machine.old.units (W.sees words.old) machine.old (W.sees words.new) machine.new result }
    ensures wild { result ≡ false → ask code.now options.now actor machine.new ≡ Nothing }
    ensures held { Held machine.new (W.sees words.new).lost (W.sees words.new).spare }
    ensures noted { IsNoted code.now machine.new (W.sees words.new).note (length (W.sees words.new).part) }
    ensures inside { Inside options.now machine.new }
    ensures actor { (W.sees words.new).actor ≡ (W.sees words.old).actor }
    ensures size { (W.sees words.new).size ≡ (W.sees words.old).size }
    ensures rest { W.rest words.new ≡ W.rest words.old }
{
    let from = machine.units();
    'events: loop {
        let asked = machine.ask(code, options, actor);
        if let Ask::Nothing = asked {
            return false;
        }
        if goes_on(machine, code, words, options, actor, from, asked) {
            return true;
        }
    }
}
