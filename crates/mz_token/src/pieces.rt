ghost use Rattle.std.specs.Prelude.{◌≡◌, ◌<◌, ◌≤◌, ◌^◌, length, take, Some, None, IfSome, IfNone, MatchOption, MatchResult};
ghost use Rattle.mz_token.specs.Shapes.{value_of, key_or_lower};
ghost use Rattle.mz_tree.specs.Spellings.{key_texts, mark_texts, number_in};
ghost use Rattle.mz_token.specs.Lexes.{NoPiece};
ghost use Rattle.mz_token.specs.Fronts.{BeginsWith, IsOther, Stops, fault_at};
ghost use Rattle.mz_token.specs.declared.token.Kind.TheVariants.{Mark};

use crate::bytes::{blank, blanks, capital, digit, digits, name_bytes, rest_of_line, small};
use crate::{Kind, LexFault, tables};
use mz_tree::Place;

/// How many bytes a name may have.
const LONGEST_NAME: usize = 64;

/// Why no lawful piece stands at the front.
#[derive(Clone, Copy, Debug, PartialEq, Eq)]
pub enum Cause {
    Byte,
    Number,
    NameTooLong,
}

impl Cause {
    /// The fault with this cause at a place.
    pub fn at(self, place: Place) -> LexFault
        ensures { result ≡ fault_at self place }
    {
        match self {
            Cause::Byte => LexFault::Byte(place),
            Cause::Number => LexFault::Number(place),
            Cause::NameTooLong => LexFault::NameTooLong(place),
        }
    }
}

/// The value of decimal digits, if it is at most 2^64-1.
fn value(digits: &[u8]) -> Option<u64>
    ensures some { IfSome result (λ value. value ≡ value_of digits.now) }
    ensures none { IfNone result (2 ^ 64 ≤ value_of digits.now) }
{
    let mut value = 0u64;
    for digit in digits {
        let Some(tens) = value.checked_mul(10) else {
            return None;
        };
        let Some(more) = tens.checked_add(u64::from(digit.saturating_sub(b'0'))) else {
            return None;
        };
        value = more;
    }
    Some(value)
}

/// The kind of a lower name.
fn lower(text: &[u8]) -> Kind
    ensures { result ≡ key_or_lower (number_in key_texts text.now) }
{
    match tables::key(text) {
        Some(number) => Kind::Key(number),
        None => Kind::Lower,
    }
}

/// The number of the mark that the first two bytes are.
fn pair_mark(bytes: &[u8]) -> Option<u8>
    ensures some { IfSome result (λ number. (1 < length bytes.now) × (number_in mark_texts (take 2 bytes.now) ≡ Some number)) }
    ensures none { IfNone result (1 < length bytes.now → number_in mark_texts (take 2 bytes.now) ≡ None) }
{
    if bytes.len() > 1 {
        tables::mark(&bytes[..2])
    } else {
        None
    }
}

/// The longest mark at the front, where no other piece begins: its number and its size.
fn mark(bytes: &[u8]) -> Option<(u8, usize)>
    requires some { 0 < length bytes.now }
    requires other { IsOther bytes.now }
    ensures { MatchOption result (NoPiece bytes.now) (λ found. BeginsWith bytes.now (Some (Mark found.0)) found.1) }
{
    match pair_mark(bytes) {
        Some(number) => Some((number, 2)),
        None => match tables::mark(&bytes[..1]) {
            Some(number) => Some((number, 1)),
            None => None,
        },
    }
}

/// The piece at the front of a text: its kind, if it is a word, and its size.
pub fn piece(bytes: &[u8]) -> Result<(Option<Kind>, usize), Cause>
    requires { 0 < length bytes.now }
    ensures { MatchResult result (λ found. BeginsWith bytes.now found.0 found.1) (λ cause. Stops cause bytes.now) }
{
    let first = bytes[0];
    if blank(first) {
        Ok((None, blanks(bytes)))
    } else if small(first) {
        let size = name_bytes(bytes);
        if size > LONGEST_NAME {
            Err(Cause::NameTooLong)
        } else {
            Ok((Some(lower(&bytes[..size])), size))
        }
    } else if capital(first) {
        let size = name_bytes(bytes);
        if size > LONGEST_NAME {
            Err(Cause::NameTooLong)
        } else {
            Ok((Some(Kind::Upper), size))
        }
    } else if digit(first) {
        let size = digits(bytes);
        match value(&bytes[..size]) {
            Some(value) => Ok((Some(Kind::Number(value)), size)),
            None => Err(Cause::Number),
        }
    } else if bytes.starts_with(b"//") {
        Ok((None, rest_of_line(bytes)))
    } else {
        match mark(bytes) {
            Some((number, size)) => Ok((Some(Kind::Mark(number)), size)),
            None => Err(Cause::Byte),
        }
    }
}
