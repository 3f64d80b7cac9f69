//! A name is declared as one of its sort.
ghost use Rattle.std.specs.Prelude.{◌≡◌};
ghost use Rattle.mz_scope.specs.Declarations.{is_other, declares};
ghost use Rattle.mz_scope.specs.Trees.{word_of};
ghost use Rattle.mz_scope.specs.View.{made_of, Comes, as_is};

use crate::fault::Cause;
use crate::making::Making;
use crate::words::Source;
use mz_token::Token;
use mz_tree::Memory;

/// Whether an earlier declaration, with another number, has a name.
pub(crate) fn is_other(first: Option<u32>, number: u32) -> bool
    ensures { result ≡ is_other first number }
{
    match first {
        Some(first) => first != number,
        None => false,
    }
}

/// A name must not be declared before, where `first` is the number of its first declaration, and at most `most` of its
/// sort may be.
pub(crate) fn declares(
    source: &Source<'_>,
    first: Option<u32>,
    number: u32,
    most: u32,
    name: &Token,
    making: &mut Making,
) -> Result<(), Memory>
    ensures { Comes as_is (declares first number most (word_of source.now.text.now name.now)) making.old result making.new }
{
    making.fault_if(is_other(first, number), Cause::Twice, name.place)?;
    making.fault_if(number == most, Cause::TooMany, name.place)
}
