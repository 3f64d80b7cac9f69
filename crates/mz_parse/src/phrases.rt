//! The parts of a body that hold no expression: marks of several forms, selects, and the forms of names alone. Each function
//! reads from the front of the tokens and gives the tokens left.
ghost use Rattle.std.specs.Prelude.{◌≡◌, suc};
ghost use Rattle.mz_grammar.specs.Answers.{begin};
ghost use Rattle.mz_grammar.specs.Reading.{token_at, maybe_at, many};
ghost use Rattle.mz_types.specs.Stops.{Gives};
ghost use Rattle.mz_types.specs.Words.{upper, number, mark};
ghost use Rattle.mz_parse.specs.Grammar.{is_multiplying, is_adding, is_comparing, multiplying, adding, comparing};
ghost use Rattle.mz_parse.specs.BodyReading.{is_beginning, beginning, select_con_at, select_at, number_at, retag_at, give_at, take_at, acquire_at, release_at, guarded_by, giving_by, new_lock_by};

use crate::{Expression, Primary, Select};
use mz_token::{Kind, Token};
use mz_types::words::{key, key_next, low, mark, mark_next, opening, up, up_next};
use mz_types::{Stop, SurfaceAtom, read_atoms};
use sqlite_items::Items;
use std::alloc::Global;

// `*`, `/` or `%`.
fn multiplies(kind: Kind) -> bool
    ensures { result ≡ is_multiplying kind }
{
    kind.is_mark(9) || (kind.is_mark(12) || kind.is_mark(13))
}

// `+` or `-`.
fn adds(kind: Kind) -> bool
    ensures { result ≡ is_adding kind }
{
    kind.is_mark(10) || kind.is_mark(11)
}

// `==`, `!=`, `<`, `<=`, `>` or `>=`.
fn compares(kind: Kind) -> bool
    ensures { result ≡ is_comparing kind }
{
    kind.is_mark(16)
        || (kind.is_mark(17)
            || (kind.is_mark(18) || (kind.is_mark(19) || (kind.is_mark(20) || kind.is_mark(21)))))
}

// What a postfix begins with.
fn begins(kind: Kind) -> bool
    ensures { result ≡ is_beginning kind }
{
    kind.is_number()
        || (kind.is_lower() || (kind.is_mark(2) || (kind.is_upper() || kind.is_key(18))))
}

/// A mark that multiplies or divides.
pub fn multiplying_mark(tokens: &[Token]) -> Result<(Token, &[Token]), Stop>
    ensures { Gives (λ x. (x.0, x.1.now)) result (token_at multiplying tokens.now) }
{
    match tokens {
        [token, rest @ ..] if multiplies(token.kind) => Ok((*token, rest)),
        _ => Err(Stop::Unexpected(tokens.len())),
    }
}

/// A mark that adds or subtracts.
pub fn adding_mark(tokens: &[Token]) -> Result<(Token, &[Token]), Stop>
    ensures { Gives (λ x. (x.0, x.1.now)) result (token_at adding tokens.now) }
{
    match tokens {
        [token, rest @ ..] if adds(token.kind) => Ok((*token, rest)),
        _ => Err(Stop::Unexpected(tokens.len())),
    }
}

/// A mark that compares.
pub fn comparing_mark(tokens: &[Token]) -> Result<(Token, &[Token]), Stop>
    ensures { Gives (λ x. (x.0, x.1.now)) result (token_at comparing tokens.now) }
{
    match tokens {
        [token, rest @ ..] if compares(token.kind) => Ok((*token, rest)),
        _ => Err(Stop::Unexpected(tokens.len())),
    }
}

/// Whether a mark that multiplies or divides is next.
pub fn multiplying_next(tokens: &[Token]) -> bool
    ensures { result ≡ begin multiplying tokens.now }
{
    match tokens {
        [token, ..] => multiplies(token.kind),
        [] => false,
    }
}

/// Whether a mark that adds or subtracts is next.
pub fn adding_next(tokens: &[Token]) -> bool
    ensures { result ≡ begin adding tokens.now }
{
    match tokens {
        [token, ..] => adds(token.kind),
        [] => false,
    }
}

/// Whether a mark that compares is next.
pub fn comparing_next(tokens: &[Token]) -> bool
    ensures { result ≡ begin comparing tokens.now }
{
    match tokens {
        [token, ..] => compares(token.kind),
        [] => false,
    }
}

/// Whether what begins a postfix is next.
pub fn beginning_next(tokens: &[Token]) -> bool
    ensures { result ≡ begin beginning tokens.now }
{
    match tokens {
        [token, ..] => begins(token.kind),
        [] => false,
    }
}

/// Whether a number is next.
pub fn number_next(tokens: &[Token]) -> bool
    ensures { result ≡ begin number tokens.now }
{
    match tokens {
        [token, ..] => token.kind.is_number(),
        [] => false,
    }
}

/// A number.
#[tactic(auto, unfolding(crate::specs::BodyReading::number_at))]
pub fn number(tokens: &[Token]) -> Result<(Primary, &[Token]), Stop>
    ensures { Gives (λ x. (x.0, x.1.now)) result (number_at tokens.now) }
{
    match tokens {
        [token, rest @ ..] if token.kind.is_number() => Ok((Primary::Number(*token), rest)),
        _ => Err(Stop::Unexpected(tokens.len())),
    }
}

// up "."
#[tactic(auto, unfolding(crate::specs::BodyReading::select_con_at))]
fn select_con(tokens: &[Token]) -> Result<(Token, &[Token]), Stop>
    ensures { Gives (λ x. (x.0, x.1.now)) result (select_con_at tokens.now) }
{
    let (con, rest) = up(tokens)?;
    let (_, rest) = mark(rest, 7)?;
    Ok((con, rest))
}

// [ up "." ]
fn maybe_select_con(tokens: &[Token]) -> Result<(Option<Token>, &[Token]), Stop>
    ensures { Gives (λ x. (x.0, x.1.now)) result (maybe_at upper select_con_at tokens.now) }
{
    if up_next(tokens) {
        let (con, rest) = select_con(tokens)?;
        Ok((Some(con), rest))
    } else {
        Ok((None, tokens))
    }
}

// "." [ up "." ] low
#[tactic(auto, unfolding(crate::specs::BodyReading::select_at))]
fn select(tokens: &[Token]) -> Result<(Select, &[Token]), Stop>
    ensures { Gives (λ x. (x.0, x.1.now)) result (select_at tokens.now) }
{
    let (_, rest) = mark(tokens, 7)?;
    let (con, rest) = maybe_select_con(rest)?;
    let (field, rest) = low(rest)?;
    Ok((Select { con, field }, rest))
}

/// { select }
#[tactic(auto, unfolding(mz_grammar::specs::Reading::many_at))]
pub fn selects(alloc: Global, tokens: &[Token]) -> Result<(Items<Select>, &[Token]), Stop>
    ensures { Gives (λ x. (x.0, x.1.now)) result (many (mark 7) select_at tokens.now) }
{
    let mut items = Items::new(alloc);
    let mut rest = tokens;
    for i in 0..tokens.len() {
        if !mark_next(rest, 7) {
            return Ok((items, rest));
        }
        let (item, more) = select(rest)?;
        items.push(item)?;
        rest = more;
    }
    Ok((items, rest))
}

/// "retag" low "from" up "to" up
#[tactic(auto, unfolding(crate::specs::BodyReading::retag_at))]
pub fn retag(tokens: &[Token]) -> Result<(Expression, &[Token]), Stop>
    ensures { Gives (λ x. (x.0, x.1.now)) result (retag_at tokens.now) }
{
    let (word, rest) = key(tokens, 13)?;
    let (name, rest) = low(rest)?;
    let (_, rest) = key(rest, 14)?;
    let (from, rest) = up(rest)?;
    let (_, rest) = key(rest, 15)?;
    let (to, rest) = up(rest)?;
    Ok((
        Expression::Retag {
            key: word,
            name,
            from,
            to,
        },
        rest,
    ))
}

/// "give" low "to" low
#[tactic(auto, unfolding(crate::specs::BodyReading::give_at))]
pub fn give(tokens: &[Token]) -> Result<(Expression, &[Token]), Stop>
    ensures { Gives (λ x. (x.0, x.1.now)) result (give_at tokens.now) }
{
    let (word, rest) = key(tokens, 16)?;
    let (name, rest) = low(rest)?;
    let (_, rest) = key(rest, 15)?;
    let (to, rest) = low(rest)?;
    Ok((
        Expression::Give {
            key: word,
            name,
            to,
        },
        rest,
    ))
}

/// "take" low "from" low
#[tactic(auto, unfolding(crate::specs::BodyReading::take_at))]
pub fn take(tokens: &[Token]) -> Result<(Expression, &[Token]), Stop>
    ensures { Gives (λ x. (x.0, x.1.now)) result (take_at tokens.now) }
{
    let (word, rest) = key(tokens, 17)?;
    let (name, rest) = low(rest)?;
    let (_, rest) = key(rest, 14)?;
    let (from, rest) = low(rest)?;
    Ok((
        Expression::Take {
            key: word,
            name,
            from,
        },
        rest,
    ))
}

/// "acquire" low
#[tactic(auto, unfolding(crate::specs::BodyReading::acquire_at))]
pub fn acquire(tokens: &[Token]) -> Result<(Expression, &[Token]), Stop>
    ensures { Gives (λ x. (x.0, x.1.now)) result (acquire_at tokens.now) }
{
    let (word, rest) = key(tokens, 21)?;
    let (name, rest) = low(rest)?;
    Ok((Expression::Acquire { key: word, name }, rest))
}

/// "release" low
#[tactic(auto, unfolding(crate::specs::BodyReading::release_at))]
pub fn release(tokens: &[Token]) -> Result<(Expression, &[Token]), Stop>
    ensures { Gives (λ x. (x.0, x.1.now)) result (release_at tokens.now) }
{
    let (word, rest) = key(tokens, 22)?;
    let (name, rest) = low(rest)?;
    Ok((Expression::Release { key: word, name }, rest))
}

/// [ "giving" atoms ], where `depth` brackets may be opened
#[tactic(auto, unfolding(crate::specs::BodyReading::giving_by))]
pub fn giving(
    alloc: Global,
    tokens: &[Token],
    depth: u32,
) -> Result<(Items<SurfaceAtom>, &[Token]), Stop>
    ensures { Gives (λ x. (x.0, x.1.now)) result (giving_by depth tokens.now) }
{
    if key_next(tokens, 11) {
        let (_, rest) = key(tokens, 11)?;
        read_atoms(alloc, rest, depth, true)
    } else {
        Ok((Items::new(alloc), tokens))
    }
}

// The atoms inside the bracket of a `newlock`, where `inside` brackets may be opened
#[tactic(auto, unfolding(crate::specs::BodyReading::guarded_by))]
fn guarded(
    alloc: Global,
    tokens: &[Token],
    inside: u32,
) -> Result<(Items<SurfaceAtom>, &[Token]), Stop>
    ensures { Gives (λ x. (x.0, x.1.now)) result (guarded_by (suc inside) tokens.now) }
{
    read_atoms(alloc, tokens, inside, false)
}

/// "newlock" "(" atoms ")", where `depth` brackets may be opened
#[tactic(auto, unfolding(crate::specs::BodyReading::new_lock_by))]
pub fn new_lock(alloc: Global, tokens: &[Token], depth: u32) -> Result<(Primary, &[Token]), Stop>
    ensures { Gives (λ x. (x.0, x.1.now)) result (new_lock_by depth tokens.now) }
{
    let (word, rest) = key(tokens, 18)?;
    let (_, rest, inside) = opening(rest, 2, depth)?;
    let (guarded, rest) = guarded(alloc, rest, inside)?;
    let (_, rest) = mark(rest, 3)?;
    Ok((Primary::NewLock { key: word, guarded }, rest))
}
