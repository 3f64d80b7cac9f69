//! Parts of a line that no program is asked for, from the front of bytes: texts, words, numbers and names. Each function gives
//! the bytes left.
ghost use Rattle.std.specs.Prelude.{◌≡◌, ◌≤◌, ◌^◌, suc, Ok, length, option_map, IfOk, IfSome, IfNone};
ghost use Rattle.std.specs.List.{prefix_len};
ghost use Rattle.std.specs.Str.{all_ascii_digits};
ghost use Rattle.mz_tree.specs.Bytes.{is_name_byte};
ghost use Rattle.mz_script.specs.Fronts.{behind_text, text_at, word_at, begins_rightly, digits_from, number_of, number_at, name_at};
ghost use Rattle.mz_script.specs.ReadWords.{opening_at};
ghost use Rattle.mz_script.specs.Stops.{Gives};

use crate::read::stop::Stop;

/// The bytes behind a text, if it stands at the front.
pub(crate) fn behind<'a>(bytes: &'a [u8], text: &[u8]) -> Option<&'a [u8]>
    ensures { option_map (λ x. x.now) result ≡ behind_text text.now bytes.now }
{
    if bytes.starts_with(text) {
        Some(&bytes[text.len()..])
    } else {
        None
    }
}

/// The bytes behind a text that stands at the front.
#[tactic(auto, unfolding(crate::specs::Fronts::text_at))]
pub(crate) fn text<'a>(bytes: &'a [u8], text: &[u8]) -> Result<&'a [u8], Stop>
    ensures { Gives (λ x. (tt, x.now)) result (text_at text.now bytes.now) }
{
    match behind(bytes, text) {
        Some(rest) => Ok(rest),
        None => Err(Stop::Unexpected(bytes.len())),
    }
}

/// The bytes behind an opening bracket, and how many more may be opened inside; `depth` more may be opened before it.
#[tactic(auto, unfolding(crate::specs::ReadWords::opening_at))]
pub(crate) fn opening<'a>(
    bytes: &'a [u8],
    bracket: &[u8],
    depth: u32,
) -> Result<(&'a [u8], u32), Stop>
    ensures gives { Gives (λ x. (tt, x.0.now)) result (opening_at depth bracket.now bytes.now) }
    ensures inside { IfOk result (λ x. depth ≡ suc x.1) }
{
    if depth == 0 {
        return Err(Stop::Unexpected(bytes.len()));
    }
    let rest = text(bytes, bracket)?;
    Ok((rest, depth - 1))
}

// A byte of a name.
fn name_byte(byte: u8) -> bool
    ensures { result ≡ is_name_byte byte }
{
    byte.is_ascii_lowercase() || byte == b'_' || byte.is_ascii_uppercase() || byte.is_ascii_digit()
}

// How many bytes of a name stand at the front.
fn name_bytes(bytes: &[u8]) -> usize
    ensures same { result ≡ prefix_len is_name_byte bytes.now }
    ensures within { result ≤ length bytes.now }
{
    bytes.iter().take_while(|byte| name_byte(**byte)).count()
}

/// As many bytes of a name as stand at the front, perhaps none, and the bytes behind them.
#[tactic(auto, unfolding(crate::specs::Fronts::word_at))]
pub(crate) fn word(bytes: &[u8]) -> (&[u8], &[u8])
    ensures { word_at bytes.now ≡ Ok (result.0.now, result.1.now) }
{
    let size = name_bytes(bytes);
    (&bytes[..size], &bytes[size..])
}

// Whether a word has a digit, and 0 stands first only alone.
fn rightly(word: &[u8]) -> bool
    ensures { result ≡ begins_rightly word.now }
{
    word.len() == 1 || (word.len() > 1 && word[0] != b'0')
}

// Whether all bytes are digits.
fn all_digits(word: &[u8]) -> bool
    ensures { result ≡ all_ascii_digits word.now }
{
    for byte in word {
        if !byte.is_ascii_digit() {
            return false;
        }
    }
    true
}

// The value of digits, if it has 32 bits.
fn value(digits: &[u8]) -> Option<u32>
    ensures some { IfSome result (λ value. value ≡ digits_from 0 digits.now) }
    ensures none { IfNone result (2 ^ 32 ≤ digits_from 0 digits.now) }
{
    let mut value = 0u32;
    for digit in digits {
        let Some(tens) = value.checked_mul(10) else {
            return None;
        };
        let Some(more) = tens.checked_add(u32::from(digit.saturating_sub(b'0'))) else {
            return None;
        };
        value = more;
    }
    Some(value)
}

// The number of 32 bits that a word is in decimal, without leading zero.
#[tactic(auto, unfolding(crate::specs::Fronts::number_of))]
fn numeral(word: &[u8]) -> Option<u32>
    ensures { result ≡ number_of word.now }
{
    if !all_digits(word) || !rightly(word) {
        return None;
    }
    value(word)
}

/// A number.
#[tactic(auto, unfolding(crate::specs::Fronts::number_at))]
pub(crate) fn number(bytes: &[u8]) -> Result<(u32, &[u8]), Stop>
    ensures { Gives (λ x. (x.0, x.1.now)) result (number_at bytes.now) }
{
    let (word, rest) = word(bytes);
    match numeral(word) {
        Some(number) => Ok((number, rest)),
        None => Err(Stop::Unexpected(bytes.len())),
    }
}

/// A name, by its number.
#[tactic(auto, unfolding(crate::specs::Fronts::name_at))]
pub(crate) fn name(bytes: &[u8]) -> Result<(u32, &[u8]), Stop>
    ensures { Gives (λ x. (x.0, x.1.now)) result (name_at bytes.now) }
{
    let rest = text(bytes, b"%")?;
    number(rest)
}
