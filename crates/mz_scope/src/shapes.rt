//! Shapes that must fit what is declared: numbers of arguments and of fields, and the cases of a match. The constructors
//! that cases name are looked up once each, and a match's data type is gone over once.
ghost use Rattle.std.specs.Prelude.{◌≡◌, ◌==◌, ℕ, Bool, List, reverse, IfOk, option_map};
ghost use Rattle.std.specs.Option.{option_copied};
ghost use Rattle.mz_token.specs.Tokens.{text_of};
ghost use Rattle.mz_scope.specs.Bodies.{has_other_count, differ_in_fields, is_number_among, match_data, arm_cons, is_misplaced, lacks_a_case, differs};
ghost use Rattle.mz_scope.specs.Lists.{arms_of};

use crate::names::ConEntry;
use crate::words::Source;
use mz_names::Scope;
use mz_parse::Case;
use mz_token::Token;
use mz_tree::{Memory, Names};
use sqlite_items::Items;

/// Whether a name is a function's, hidden by no local name, and its signature has another number of parameters.
pub(crate) fn has_other_count(
    source: &Source<'_>,
    scope: &Scope,
    name: &Token,
    count: usize,
) -> bool
    ensures { result ≡ has_other_count source.now.globals.now scope.now (text_of source.now.text.now name.now) count }
{
    let text = source.spelled(name);
    if scope.find(text).is_some() {
        return false;
    }
    match source.globals.params_of(text) {
        Some(params) => params as usize != count,
        None => false,
    }
}

/// Whether two constructors have different numbers of fields.
pub(crate) fn differ_in_fields(old: Option<&ConEntry>, new: Option<&ConEntry>) -> bool
    ensures { result ≡ differ_in_fields (option_copied old.entry) (option_copied new.entry) }
{
    match (old, new) {
        (Some(old), Some(new)) => old.fields().len() != new.fields().len(),
        _ => false,
    }
}

// whether a number is one of these
fn is_number_among(numbers: &[u32], number: u32) -> bool
    ensures { result ≡ is_number_among numbers.now number }
{
    for i in 0..numbers.len() {
        if numbers[i] == number {
            return true;
        }
    }
    false
}

/// The data type of a match: that of its first case's constructor.
pub(crate) fn match_data(source: &Source<'_>, cases: &[Case]) -> Option<u32>
    ensures { result ≡ match_data source.now.globals.now (arms_of source.now.text.now cases.now) }
{
    match cases {
        [] => None,
        [first, ..] => match source.globals.con_named(source.spelled(&first.con)) {
            Some(con) => Some(con.variety()),
            None => None,
        },
    }
}

// the constructors that a match's cases name
fn arm_cons(source: &Source<'_>, cases: &[Case]) -> Result<Names, Memory>
    ensures { IfOk result (λ it. it ≡ arm_cons source.now.globals.now (arms_of source.now.text.now cases.now)) }
{
    let mut numbers = Items::new(source.alloc);
    for i in 0..cases.len() {
        match source.globals.con_named(source.spelled(&cases[i].con)) {
            Some(con) => numbers.push(con.number())?,
            None => {}
        }
    }
    Ok(numbers)
}

/// Whether some constructor of a match's data type isn't named by a case.
pub(crate) fn lacks_a_case(source: &Source<'_>, cases: &[Case]) -> Result<bool, Memory>
    ensures { IfOk result (λ lacks. lacks ≡ lacks_a_case source.now.globals.now (arms_of source.now.text.now cases.now)) }
{
    let Some(variety) = match_data(source, cases) else {
        return Ok(false);
    };
    let named = arm_cons(source, cases)?;
    Ok(source.globals.lacks_one(variety, named.as_slice()))
}

// whether a number isn't the one that is declared
fn differs(declared: Option<u32>, number: u32) -> bool
    ensures { result ≡ differs declared number }
{
    match declared {
        Some(declared) => declared != number,
        None => false,
    }
}

/// Whether a case's constructor is of another data type, or is named by a case before, too. One that isn't declared is
/// that fault alone.
#[tactic(auto, using(crate::proofs::Reversed::among_reversed))]
pub(crate) fn is_misplaced(variety: Option<u32>, earlier: &[u32], con: Option<&ConEntry>) -> bool
    ensures { result ≡ is_misplaced variety (reverse earlier.now) (option_copied con.entry) }
{
    let Some(con) = con else {
        return false;
    };
    if differs(variety, con.variety()) {
        return true;
    }
    is_number_among(earlier, con.number())
}
