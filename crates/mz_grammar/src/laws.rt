//! What the combinators promise, for each grammar and over any tokens and values.

ghost use Rattle.std.specs.Prelude.{ℕ, List, Option, None};
ghost use Rattle.mz_grammar.specs.Brackets.{Turn};
ghost use Rattle.mz_grammar.specs.Promises.{AllFit, HasNoBrackets, IsComplete, IsNeverDeep, IsSound, TellsFirstDeep, TellsFirstWrong, ValueOrFault};
ghost use Rattle.mz_grammar.specs.Reading.{Read};
ghost use Rattle.mz_grammar.specs.Readers.{Reads};

/// A grammar, and a function that is to read it.
pub trait Grammar {
    /// What a text is made of.
    type Token;
    /// What a text spells.
    type Value;

    /// Which tokens open or close a bracket.
    ghost turn: { Self.Token → Turn };

    /// How many brackets may be open at once.
    ghost limit: { ℕ };

    /// How many more may be opened behind what is read.
    ghost left: { ℕ };

    /// The tokens that spell a value.
    ghost spelled: { List Self.Token → Self.Value → Type 0 };

    /// What may come behind them.
    ghost may_follow: { Option Self.Token → Type 0 };

    /// The function that reads them.
    ghost reader: { List Self.Token → Read Self.Token Self.Value };
}

/// A reader of a grammar, asked for a whole text, answers exactly: a value where the whole text spells it within the limit,
/// and that value alone; else the first token that can't stand where it does (or the end that comes too early), or the first
/// bracket that is one too many. Each text has one of these, and none has two.
pub fn answers_exactly<G: Grammar>()
    requires reads { Reads G.turn G.reader G.spelled G.may_follow G.limit G.left }
    requires may_end { G.may_follow None }
    ensures sound { IsSound G.turn G.limit G.reader G.spelled }
    ensures complete { IsComplete G.turn G.limit G.reader G.spelled }
    ensures first_wrong { TellsFirstWrong G.turn G.limit G.reader G.spelled }
    ensures first_deep { TellsFirstDeep G.turn G.limit G.reader G.spelled }
    ensures one_of_them { ValueOrFault G.turn G.limit G.spelled }
{}

/// Where no token is a bracket, every text fits any limit, and none is too deep.
pub fn fits_without_brackets<G: Grammar>()
    requires no_brackets { HasNoBrackets G.turn }
    ensures fit { AllFit G.turn G.limit }
    ensures never_deep { IsNeverDeep G.turn G.limit G.reader G.spelled }
{}
