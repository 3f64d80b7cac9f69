//! The numbers of scripts have 32 bits.
//!
//! A number that code has read is known to fit its type; one that only stands behind a reference isn't. So these functions
//! read all the numbers of a script that stand beside its permissions, and do nothing else.
ghost use Rattle.std.specs.Prelude.{map};
ghost use Rattle.mz_view.specs.Steps.{plain_step};
ghost use Rattle.mz_deriv.specs.Scripts.{script_cases_of};
ghost use Rattle.mz_deriv.specs.View.{plain_item, plain_script_case, plain_script_cases};
ghost use Rattle.mz_deriv.specs.Spelled.{IsNumber};
ghost use Rattle.mz_deriv.specs.Numbers.{StepNumbers, ItemNumbers, OneNumbers, CaseNumbers, AreNumbers};

use crate::{Item, ScriptCase};
use mz_view::ViewStep;

/// Reads the numbers of the items.
#[cycle(numbers)]
pub fn read_items(items: &[Item])
    ensures { AreNumbers (map plain_item items.now) }
{
    for i in 0..items.len() {
        read_item(&items[i]);
    }
}

#[cycle(numbers)]
fn read_item(item: &Item)
    ensures { ItemNumbers (plain_item item.now) }
{
    match item {
        Item::Step(step) => read_step(step),
        Item::Do { cases, .. } => read_cases(cases.as_slice()),
    }
}

#[cycle(numbers)]
fn read_cases(cases: &[ScriptCase])
    ensures { CaseNumbers (script_cases_of (plain_script_cases cases.now)) }
{
    for k in 0..cases.len() {
        read_case(&cases[k]);
    }
}

#[cycle(numbers)]
fn read_case(case: &ScriptCase)
    ensures { OneNumbers (plain_script_case case.now) }
{
    read_number(case.fresh);
    read_items(case.body.items.as_slice());
}

// a number that is given has been read
fn read_number(_number: u32)
    ensures { IsNumber _number }
{}

fn read_step(step: &ViewStep)
    ensures { StepNumbers (plain_step step.now) }
{
    match step {
        ViewStep::Unfold {
            name,
            variety,
            fresh,
        } => {
            let _read = (*name, *variety, *fresh);
        }
        ViewStep::Rename { to, .. } => {
            let _read = *to;
        }
        ViewStep::Equal { left, right } => {
            let _read = (*left, *right);
        }
        ViewStep::Dynamic { name } => {
            let _read = *name;
        }
        ViewStep::Clause { adopts, .. } => {
            let _read = *adopts;
        }
        ViewStep::Unknown { name } => {
            let _read = *name;
        }
        ViewStep::InField { field, to, .. } => {
            let _read = (*field, *to);
        }
        ViewStep::InLock { spot, to, .. } => {
            let _read = (*spot, *to);
        }
        _ => {}
    }
}
