ghost use Rattle.std.specs.Prelude.{◌≡◌, ◌<◌, ◌-◌, ◌^◌, length};
ghost use Rattle.mz_token.specs.Places.{place_of};
ghost use Rattle.mz_token.specs.Tokens.{text_of, is_lower, is_upper, is_number, is_key, is_mark};

use crate::scan::place_after;
use mz_tree::{Place, Text};
use sqlite_items::Items;
use std::alloc::AllocError;
use thiserror::Error;

/// What a token is. A key and a mark hold their numbers in their tables, from 0.
#[derive(Clone, Copy, Debug, PartialEq, Eq)]
pub enum Kind {
    /// A lower name that is no key.
    Lower,
    /// An upper name.
    Upper,
    /// A number, by its value.
    Number(u64),
    /// A key.
    Key(u8),
    /// A mark.
    Mark(u8),
}

impl Kind {
    /// Whether it is a lower name that is no key.
    pub fn is_lower(self) -> bool
        ensures { result ≡ is_lower self }
    {
        matches!(self, Kind::Lower)
    }

    /// Whether it is an upper name.
    pub fn is_upper(self) -> bool
        ensures { result ≡ is_upper self }
    {
        matches!(self, Kind::Upper)
    }

    /// Whether it is a number.
    pub fn is_number(self) -> bool
        ensures { result ≡ is_number self }
    {
        matches!(self, Kind::Number(_))
    }

    /// Whether it is the key of this number.
    pub fn is_key(self, number: u8) -> bool
        ensures { result ≡ is_key number self }
    {
        match self {
            Kind::Key(key) => key == number,
            _ => false,
        }
    }

    /// Whether it is the mark of this number.
    pub fn is_mark(self, number: u8) -> bool
        ensures { result ≡ is_mark number self }
    {
        match self {
            Kind::Mark(mark) => mark == number,
            _ => false,
        }
    }
}

/// A word of a text: its kind, its span from `start` up to `end`, and the place of its first byte.
#[derive(Clone, Copy, Debug, PartialEq, Eq)]
pub struct Token {
    pub kind: Kind,
    pub start: u32,
    pub end: u32,
    pub place: Place,
}

/// A text with its tokens, in order.
#[derive(Drop)]
pub struct Tokens {
    pub text: Text,
    pub items: Items<Token>,
}

impl Tokens {
    /// The bytes of a token: those of the text from its start up to its end. It takes no memory.
    pub fn text_of(&self, token: &Token) -> &[u8]
        ensures { result.now ≡ text_of self.now.text token.now }
    {
        let bytes = self.text.as_slice();
        let end = (token.end as usize).min(bytes.len());
        let start = (token.start as usize).min(end);
        &bytes[start..end]
    }

    /// The place after the last byte of the text.
    pub fn end_place(&self) -> Place
        requires { length self.now.text < 2 ^ 32 - 1 }
        ensures { result ≡ place_of self.now.text }
    {
        place_after(Place { line: 1, col: 1 }, self.text.as_slice())
    }
}

/// Why a text has no tokens, with the first place where no lawful piece stands.
#[derive(Clone, Copy, Debug, PartialEq, Eq, Error)]
pub enum LexFault {
    /// No piece begins there.
    #[error("no token begins with the byte at {0}")]
    Byte(Place),
    /// A number over 2^64-1.
    #[error("number above 18446744073709551615 at {0}")]
    Number(Place),
    /// A name of more than 64 bytes.
    #[error("name of more than 64 bytes at {0}")]
    NameTooLong(Place),
    /// Want of memory.
    #[error("not enough memory to hold the tokens")]
    Memory,
}

impl From<AllocError> for LexFault {
    ghost use Rattle.std.specs.Prelude.{◌≡◌};
    ghost use Rattle.mz_token.specs.declared.token.LexFault.TheVariants.{Memory};

    ghost from_gives = { λ _ e. e ≡ Memory };

    fn from(_: AllocError) -> Self {
        LexFault::Memory
    }
}
