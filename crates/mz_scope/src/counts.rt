//! How many of each sort are declared: the number of a declaration is how many of its sort stand before it. Numbers have 32
//! bits; where one would pass that, the answer is want of memory.
ghost use Rattle.std.specs.Prelude.{◌≡◌, ◌+◌, IfOk};
ghost use Rattle.std.specs.List.{range_with_len};

use mz_tree::{Memory, Names};
use sqlite_items::Items;
use std::alloc::Global;

/// How many data types, signatures, constructors and functions are declared so far.
#[derive(Clone, Copy, Debug, PartialEq, Eq)]
pub(crate) struct Counts {
    pub(crate) varieties: u32,
    pub(crate) sigs: u32,
    pub(crate) cons: u32,
    pub(crate) funs: u32,
}

/// The sum of two numbers.
pub(crate) fn sum(a: u32, b: u32) -> Result<u32, Memory>
    ensures { IfOk result (λ n. n ≡ a + b) }
{
    match a.checked_add(b) {
        Some(number) => Ok(number),
        None => Err(Memory),
    }
}

/// How many there are, as a number of 32 bits.
pub(crate) fn number(count: usize) -> Result<u32, Memory>
    ensures { IfOk result (λ n. n ≡ count) }
{
    match u32::try_from(count) {
        Ok(number) => Ok(number),
        Err(_) => Err(Memory),
    }
}

/// The number behind so many, from a number on.
pub(crate) fn after(first: u32, count: usize) -> Result<u32, Memory>
    ensures { IfOk result (λ n. n ≡ first + count) }
{
    sum(first, number(count)?)
}

/// So many numbers in order, from one on.
pub(crate) fn numbers(alloc: Global, first: u32, count: usize) -> Result<Names, Memory>
    ensures { IfOk result (λ l. l ≡ range_with_len first count) }
{
    let mut numbers = Items::new(alloc);
    for i in 0..count {
        numbers.push(after(first, i)?)?;
    }
    Ok(numbers)
}
