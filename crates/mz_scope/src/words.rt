//! The source that is gone over: its bytes, and what it declares at the top level.
ghost use Rattle.std.specs.Prelude.{◌≡◌};
ghost use Rattle.mz_token.specs.Tokens.{text_of};

use crate::names::Globals;
use mz_token::Token;
use std::alloc::Global;

/// The bytes of a source, and all that it declares at the top level.
#[derive(Clone, Copy)]
pub(crate) struct Source<'a> {
    pub(crate) alloc: Global,
    pub(crate) text: &'a [u8],
    pub(crate) globals: &'a Globals,
}

impl<'a> Source<'a> {
    /// The bytes of a token.
    pub(crate) fn spelled(&self, token: &Token) -> &[u8]
        ensures { result.now ≡ text_of self.now.text.now token.now }
    {
        let end = (token.end as usize).min(self.text.len());
        let start = (token.start as usize).min(end);
        &self.text[start..end]
    }
}
