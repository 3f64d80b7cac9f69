//! An ask is put to words. Which instruction asks doesn't matter here.
ghost use Rattle.std.specs.Prelude.{◌≡◌, ◌≢◌, ◌<◌};
ghost use Rattle.mz_words.specs.Answers.{May, move_of};
ghost use Rattle.mz_words.specs.Turns.{IsPlaced, IsTold};
ghost use Rattle.mz_words.specs.declared.asks.Ask.TheVariants.{Looks, Nothing};
ghost use Rattle.mz_words.specs.Turns.{answered};
ghost use Rattle.mz_thread.specs.Answered.{LeavesRoom};
ghost use Rattle.mz_thread.specs.Stages.{IsFrame};

use mz_words::{Answer, Ask, Until, Words};

// a look, whose entry is made where it is met
fn look<W: Words>(words: &mut W, place: u32, until: Until) -> Answer
    requires placed { place < (W.sees words.old).size }
    requires spare { 0 < (W.sees words.old).spare }
    ensures may { May (Looks place until) result }
    ensures answered { W.sees words.new ≡ record (answered (Looks place until) result (W.sees words.old)) { spare = (W.sees words.new).spare } }
    ensures told { IsTold (Looks place until) result (W.sees words.old).told }
    ensures rest { W.rest words.new ≡ W.rest words.old }
    ensures spare { LeavesRoom (Looks place until) result (W.sees words.old).spare (W.sees words.new).spare }
{
    match until {
        Until::Zero => {
            let seen = words.watch(place, Until::Zero);
            if seen == 0 {
                Answer::Saw(0)
            } else {
                Answer::Quiet
            }
        }
        Until::NotZero => {
            let seen = words.watch(place, Until::NotZero);
            if seen == 0 {
                Answer::Quiet
            } else {
                Answer::Saw(seen)
            }
        }
    }
}

/// Makes the step that is asked for, and tells what it saw.
///
/// Directly before a step of an instruction it makes room for this entry and the one that closes the record; `Refused` where
/// there is no memory for them. An act without a step leaves the words as they are.
pub(crate) fn make_step<W: Words>(words: &mut W, ask: Ask) -> Answer
    requires asks { ask ≢ Nothing }
    requires plain { IsFrame ask → ⊥ }
    requires placed { IsPlaced (move_of ask) (W.sees words.old).size }
    requires spare { 0 < (W.sees words.old).spare }
    requires lost { (W.sees words.old).lost < 18446744073709551615 }
    ensures may { May ask result }
    ensures answered { W.sees words.new ≡ record (answered ask result (W.sees words.old)) { spare = (W.sees words.new).spare } }
    ensures told { IsTold ask result (W.sees words.old).told }
    ensures rest { W.rest words.new ≡ W.rest words.old }
    ensures spare { LeavesRoom ask result (W.sees words.old).spare (W.sees words.new).spare }
{
    match ask {
        Ask::Local => Answer::Quiet,
        Ask::Frames(_) => Answer::Quiet,
        Ask::Nothing => Answer::Quiet,
        Ask::Looks(place, until) => look(words, place, until),
        Ask::Starts(place) => Answer::Saw(words.load(place)),
        Ask::Stops => Answer::Saw(words.fetch_max(3, 1)),
        Ask::Leaves => Answer::Saw(words.fetch_sub(2, 1)),
        Ask::Loads(place) => match words.reserve(2) {
            Ok(()) => Answer::Saw(words.load(place)),
            Err(_) => Answer::Refused,
        },
        Ask::Adds(place, value) => match words.reserve(2) {
            Ok(()) => Answer::Saw(words.fetch_add(place, value)),
            Err(_) => Answer::Refused,
        },
        Ask::Stores(place, value) => match words.reserve(2) {
            Ok(()) => {
                words.store(place, value);
                Answer::Saw(0)
            }
            Err(_) => Answer::Refused,
        },
        Ask::Tries(place) => match words.reserve(2) {
            Ok(()) => {
                if words.try_lock(place) {
                    Answer::Saw(0)
                } else {
                    Answer::Missed
                }
            }
            Err(_) => Answer::Refused,
        },
        Ask::Prints(value) => match words.reserve(2) {
            Ok(()) => Answer::Saw(words.print(value)),
            Err(_) => Answer::Refused,
        },
    }
}
