//! The script of one function in words, as far as the one-cell program has them; all else is a mark.
use crate::answers::{derivation_of, push_bytes};
use mz_deriv::{Derivation, Item};
use mz_tree::{Atom, Program, Ty};
use mz_view::ViewStep;
use std::alloc::Global;
use std::test::Fail;

fn push_number(alloc: Global, name: u32, text: &mut String) -> Result<(), Fail> {
    text.push_str(format!(in alloc; "%{name}")?.as_str())?;
    Ok(())
}

/// A block with its constructor's fields.
fn push_block(
    alloc: Global,
    program: &Program,
    con: u32,
    fields: &[u32],
    text: &mut String,
) -> Result<(), Fail> {
    let made = program
        .cons
        .get(con as usize)
        .ok_or("a constructor is missing")?;
    push_bytes(text, made.name.as_slice())?;
    text.push_str(" { ")?;
    for k in 0..fields.len() {
        let field = made.fields.get(k).ok_or("a field is missing")?;
        push_bytes(text, field.name.as_slice())?;
        text.push_str(" = ")?;
        push_number(alloc, fields[k], text)?;
        text.push_str(" ")?;
    }
    text.push_str("}")?;
    Ok(())
}

fn push_atom(alloc: Global, program: &Program, atom: &Atom, text: &mut String) -> Result<(), Fail> {
    match atom {
        Atom::Has { name, ty } => {
            push_number(alloc, *name, text)?;
            text.push_str(" @ ")?;
            match ty {
                Ty::Int => text.push_str("int")?,
                Ty::Block { con, fields, .. } => {
                    push_block(alloc, program, *con, fields.as_slice(), text)?
                }
                _ => text.push_str("?")?,
            }
        }
        Atom::Same { .. } => text.push_str("?")?,
    }
    Ok(())
}

fn push_step(
    alloc: Global,
    program: &Program,
    step: &ViewStep,
    text: &mut String,
) -> Result<(), Fail> {
    match step {
        ViewStep::Equal { left, right } => {
            text.push_str("equal ")?;
            push_number(alloc, *left, text)?;
            text.push_str(" ")?;
            push_number(alloc, *right, text)?;
        }
        ViewStep::Rename { atom, to } => {
            text.push_str("rename ")?;
            push_atom(alloc, program, atom, text)?;
            text.push_str(" to ")?;
            push_number(alloc, *to, text)?;
        }
        _ => text.push_str("?")?,
    }
    Ok(())
}

fn push_item(alloc: Global, program: &Program, item: &Item, text: &mut String) -> Result<(), Fail> {
    match item {
        Item::Step(step) => push_step(alloc, program, step, text)?,
        Item::Do { uses, .. } => {
            text.push_str("do")?;
            if let Some(atom) = uses {
                text.push_str(" ")?;
                push_atom(alloc, program, atom, text)?;
            }
        }
    }
    text.push_str("\n")?;
    Ok(())
}

fn told(alloc: Global, program: &Program, derivation: &Derivation) -> Result<String, Fail> {
    let mut text = String::new(alloc);
    let script = derivation.scripts.get(0).ok_or("a script is missing")?;
    for k in 0..script.items.len() {
        let item = script.items.get(k).ok_or("an item is missing")?;
        push_item(alloc, program, item, &mut text)?;
    }
    Ok(text)
}

/// The script that is found for the first function of a source.
pub(crate) fn script_of(alloc: Global, source: &str) -> Result<String, Fail> {
    let Some((program, derivation)) = derivation_of(alloc, source) else {
        return Err("no derivation")?;
    };
    told(alloc, &program, &derivation)
}
