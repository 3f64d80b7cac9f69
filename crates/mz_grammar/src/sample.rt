//! An example: a letter in any number of brackets, of which two may be open at once.

ghost use Rattle.mz_grammar.specs.Promises.{IsComplete, IsSound, TellsFirstDeep, TellsFirstWrong, ValueOrFault};
ghost use Rattle.mz_grammar.specs.Nests.{IsNest, below, nest_by, turn};

use crate::laws::{Grammar, answers_exactly};

/// The letter in brackets.
pub struct Nest;

impl Grammar for Nest {
    ghost use Rattle.mz_grammar.specs.Readers.{Any};
    ghost use Rattle.mz_grammar.specs.Nests.{IsNest, below, nest_by, turn};

    type Token = u8;

    type Value = u8;

    ghost turn = { turn };

    ghost limit = { 2 };

    ghost left = { 2 };

    ghost spelled = { IsNest };

    ghost may_follow = { Any };

    ghost reader = { nest_by 2 (below 2) };
}

/// Its reader, asked for a whole text, answers exactly.
pub fn nest_answers_exactly()
    ensures sound { IsSound turn 2 (nest_by 2 (below 2)) IsNest }
    ensures complete { IsComplete turn 2 (nest_by 2 (below 2)) IsNest }
    ensures first_wrong { TellsFirstWrong turn 2 (nest_by 2 (below 2)) IsNest }
    ensures first_deep { TellsFirstDeep turn 2 (nest_by 2 (below 2)) IsNest }
    ensures one_of_them { ValueOrFault turn 2 IsNest }
{
    answers_exactly::<Nest>()
}
