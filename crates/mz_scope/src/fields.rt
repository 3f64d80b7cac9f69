//! Fields with what they are given, in types and in expressions alike: each declared field is written once, in any order,
//! and what comes of them stands in declared order. Names are looked up, so that fields by the tens of thousands, which
//! are refused, take time by their number alone.
ghost use Rattle.std.specs.Prelude.{◌≡◌, drop, IfOk, None};
ghost use Rattle.std.specs.Option.{option_copied};
ghost use Rattle.std.specs.List.{list_all};
ghost use Rattle.mz_scope.specs.Types.{is_among, names_in, is_each_once, number_of, in_order, is_field, are_fields};
ghost use Rattle.mz_scope.specs.Trees.{word_of};
ghost use Rattle.mz_scope.specs.View.{made_of, Comes, as_is};

use crate::fault::Cause;
use crate::making::Making;
use crate::names::ConEntry;
use crate::words::Source;
use mz_names::FieldList;
use mz_token::Token;
use mz_tree::{Memory, Names, Place};
use sqlite_items::Items;
use std::alloc::Global;

// whether each of the names is one of those others
#[tactic(auto, using(crate::proofs::Lists::drop_at))]
fn are_all_among(names: &FieldList, others: &FieldList) -> bool
    ensures { result ≡ list_all (is_among (names_in others.now)) (names_in names.now) }
{
    for i in 0..names.len() {
        if !others.has(names.text_at(i)) {
            return false;
        }
    }
    true
}

// whether the written names are each declared one once
fn is_each_once(declared: &FieldList, written: &FieldList) -> bool
    ensures { result ≡ is_each_once (names_in declared.now) (names_in written.now) }
{
    written.are_apart() && are_all_among(written, declared) && are_all_among(declared, written)
}

/// The number of a constructor; one that isn't declared has none of its own.
pub(crate) fn number_of(con: Option<&ConEntry>) -> u32
    ensures { result ≡ number_of (option_copied con.entry) }
{
    match con {
        Some(con) => con.number(),
        None => 0,
    }
}

// the numbers of names, in order
fn numbers(alloc: Global, names: &FieldList) -> Result<Names, Memory>
    ensures { IfOk result (λ it. it ≡ in_order None names.now) }
{
    let mut numbers = Items::new(alloc);
    for i in 0..names.len() {
        numbers.push(names.number_at(i))?;
    }
    Ok(numbers)
}

/// The values of fields in declared order.
pub(crate) fn in_order(
    alloc: Global,
    con: Option<&ConEntry>,
    written: &FieldList,
) -> Result<Names, Memory>
    ensures { IfOk result (λ it. it ≡ in_order (option_copied con.entry) written.now) }
{
    let Some(con) = con else {
        return numbers(alloc, written);
    };
    let fields = con.fields();
    let mut values = Items::new(alloc);
    for i in 0..fields.len() {
        values.push(written.find(fields.text_at(i)).unwrap_or(0))?;
    }
    Ok(values)
}

/// A written field must be one of the constructor's.
pub(crate) fn is_field(
    source: &Source<'_>,
    con: Option<&ConEntry>,
    field: &Token,
    making: &mut Making,
) -> Result<(), Memory>
    ensures { Comes as_is (is_field (option_copied con.entry) (word_of source.now.text.now field.now)) making.old result making.new }
{
    match con {
        Some(con) => {
            let found = con.fields().find(source.spelled(field));
            making.fault_if(found.is_none(), Cause::Unknown, field.place)
        }
        None => Ok(()),
    }
}

/// The written fields must be each declared one once.
pub(crate) fn are_fields(
    con: Option<&ConEntry>,
    written: &FieldList,
    place: Place,
    making: &mut Making,
) -> Result<(), Memory>
    ensures { Comes as_is (are_fields (option_copied con.entry) written.now place) making.old result making.new }
{
    match con {
        Some(con) => {
            let fit = is_each_once(con.fields(), written);
            making.fault_if(!fit, Cause::Shape, place)
        }
        None => Ok(()),
    }
}
