//! Single tokens at the front: names, keys, marks and brackets. Each function that reads gives the token and the tokens
//! left, and each test looks at the next token alone.

ghost use Rattle.std.specs.Prelude.{◌≡◌, suc, IfOk};
ghost use Rattle.mz_grammar.specs.Answers.{begin};
ghost use Rattle.mz_grammar.specs.Reading.{token_at, open_at};
ghost use Rattle.mz_types.specs.Stops.{Gives};
ghost use Rattle.mz_types.specs.Words.{lower, upper, key, mark, name};

use crate::Stop;
use mz_token::Token;

/// A lower name.
pub fn low(tokens: &[Token]) -> Result<(Token, &[Token]), Stop>
    ensures { Gives (λ x. (x.0, x.1.now)) result (token_at lower tokens.now) }
{
    match tokens {
        [token, rest @ ..] if token.kind.is_lower() => Ok((*token, rest)),
        _ => Err(Stop::Unexpected(tokens.len())),
    }
}

/// An upper name.
pub fn up(tokens: &[Token]) -> Result<(Token, &[Token]), Stop>
    ensures { Gives (λ x. (x.0, x.1.now)) result (token_at upper tokens.now) }
{
    match tokens {
        [token, rest @ ..] if token.kind.is_upper() => Ok((*token, rest)),
        _ => Err(Stop::Unexpected(tokens.len())),
    }
}

/// The key of this number.
pub fn key(tokens: &[Token], number: u8) -> Result<(Token, &[Token]), Stop>
    ensures { Gives (λ x. (x.0, x.1.now)) result (token_at (key number) tokens.now) }
{
    match tokens {
        [token, rest @ ..] if token.kind.is_key(number) => Ok((*token, rest)),
        _ => Err(Stop::Unexpected(tokens.len())),
    }
}

/// The mark of this number.
pub fn mark(tokens: &[Token], number: u8) -> Result<(Token, &[Token]), Stop>
    ensures { Gives (λ x. (x.0, x.1.now)) result (token_at (mark number) tokens.now) }
{
    match tokens {
        [token, rest @ ..] if token.kind.is_mark(number) => Ok((*token, rest)),
        _ => Err(Stop::Unexpected(tokens.len())),
    }
}

/// A lower name, or the key `result` where a value is called so.
pub fn name(tokens: &[Token], result_stands: bool) -> Result<(Token, &[Token]), Stop>
    ensures { Gives (λ x. (x.0, x.1.now)) result (token_at (name result_stands) tokens.now) }
{
    match tokens {
        [token, rest @ ..] if token.kind.is_lower() || (result_stands && token.kind.is_key(12)) => {
            Ok((*token, rest))
        }
        _ => Err(Stop::Unexpected(tokens.len())),
    }
}

/// The opening bracket that is the mark of this number, where `depth` brackets may be opened, and how many may be opened
/// behind it.
pub fn opening(tokens: &[Token], number: u8, depth: u32) -> Result<(Token, &[Token], u32), Stop>
    ensures gives { Gives (λ x. (x.0, x.1.now)) result (open_at (mark number) depth tokens.now) }
    ensures inside { IfOk result (λ x. depth ≡ suc x.2) }
{
    if depth == 0 {
        if mark_next(tokens, number) {
            return Err(Stop::TooDeep(tokens.len()));
        }
        return Err(Stop::Unexpected(tokens.len()));
    }
    let (token, rest) = mark(tokens, number)?;
    Ok((token, rest, depth - 1))
}

/// Whether a lower name is next.
pub fn low_next(tokens: &[Token]) -> bool
    ensures { result ≡ begin lower tokens.now }
{
    match tokens {
        [token, ..] => token.kind.is_lower(),
        [] => false,
    }
}

/// Whether an upper name is next.
pub fn up_next(tokens: &[Token]) -> bool
    ensures { result ≡ begin upper tokens.now }
{
    match tokens {
        [token, ..] => token.kind.is_upper(),
        [] => false,
    }
}

/// Whether the key of this number is next.
pub fn key_next(tokens: &[Token], number: u8) -> bool
    ensures { result ≡ begin (key number) tokens.now }
{
    match tokens {
        [token, ..] => token.kind.is_key(number),
        [] => false,
    }
}

/// Whether the mark of this number is next.
pub fn mark_next(tokens: &[Token], number: u8) -> bool
    ensures { result ≡ begin (mark number) tokens.now }
{
    match tokens {
        [token, ..] => token.kind.is_mark(number),
        [] => false,
    }
}
