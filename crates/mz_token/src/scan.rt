ghost use Rattle.std.specs.Prelude.{◌≡◌, ◌<◌, ◌+◌, ◌-◌, ◌^◌, ◌++◌, [], ℕ, List, length, All, IfOk, IfErr, OnOk};
ghost use Rattle.mz_token.specs.declared.token.Token.{Token};
ghost use Rattle.mz_token.specs.declared.token.LexFault.{LexFault};
ghost use Rattle.mz_token.specs.Places.{place_of};
ghost use Rattle.mz_token.specs.Tokens.{InOrder, IsWithin};
ghost use Rattle.mz_token.specs.Lexes.{Lexes, Faults, HasCause, Gives, Refuses};
ghost use Rattle.mz_token.specs.Fronts.{word_of};

use crate::pieces::piece;
use crate::{Kind, LexFault, Token, Tokens};
use mz_tree::Place;
use sqlite_items::Items;
use std::alloc::{AllocError, Global};

/// The place after a text that begins at this place.
pub fn place_after(place: Place, text: &[u8]) -> Place
    requires lines { place.line + length text.now < 2 ^ 32 }
    requires columns { place.col + length text.now < 2 ^ 32 }
    ensures { (before : List ℕ) → place ≡ place_of before → result ≡ place_of (before ++ text.now) }
{
    let mut after = place;
    for byte in text {
        if *byte == b'\n' {
            after.line += 1;
            after.col = 1;
        } else {
            after.col += 1;
        }
    }
    after
}

/// Adds a word, if it is one.
fn push_word(
    items: &mut Items<Token>,
    kind: Option<Kind>,
    start: u32,
    end: u32,
    place: Place,
) -> Result<(), AllocError>
    ensures { OnOk result (items.new ≡ items.old ++ word_of kind start end place) }
{
    match kind {
        Some(kind) => items.push(Token {
            kind,
            start,
            end,
            place,
        }),
        None => Ok(()),
    }
}

/// The tokens of a text, which has fewer than 2^32-1 bytes.
///
/// White space is the bytes 9, 10, 13 and 32. A comment runs from `//` up to the line's end and may hold any bytes. A
/// lower name begins with a small letter or `_`, an upper name with a capital; letters, digits and `_` follow, and a name
/// has at most 64 bytes. A number is one or more decimal digits of a value up to 2^64-1. The longest token wins.
///
/// It refuses a text at the first place where no lawful piece stands, and for want of memory.
pub fn tokens(alloc: Global, bytes: &[u8]) -> Result<Tokens, LexFault>
    requires { length bytes.now < 2 ^ 32 - 1 }
    ensures text { IfOk result (λ found. found.text ≡ bytes.now) }
    ensures lexes { IfOk result (λ found. Lexes bytes.now found.items) }
    ensures in_order { IfOk result (λ found. InOrder 0 found.items (length bytes.now)) }
    ensures within { IfOk result (λ found. All (IsWithin (length bytes.now)) found.items) }
    ensures cause { IfErr result (λ fault. HasCause bytes.now fault) }
    ensures gives { (tokens : List Token) → Lexes bytes.now tokens → Gives result tokens }
    ensures refuses { (fault : LexFault) → Faults bytes.now fault → Refuses result fault }
{
    let text = Items::from_slice(alloc, bytes)?;
    let mut items = Items::new(alloc);
    let mut at = 0;
    let mut place = Place { line: 1, col: 1 };
    while at < bytes.len() {
        match piece(&bytes[at..]) {
            Ok((kind, size)) => {
                let end = at + size;
                push_word(&mut items, kind, at as u32, end as u32, place)?;
                place = place_after(place, &bytes[at..end]);
                at = end;
            }
            Err(cause) => return Err(cause.at(place)),
        }
    }
    Ok(Tokens { text, items })
}
