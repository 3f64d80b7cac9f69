//! Rules that add one permission, and keep all that is held.
ghost use Rattle.std.specs.Prelude.{None};
ghost use Rattle.mz_tree.specs.Plain.{Has_atom, Block_type};
ghost use Rattle.mz_tree.specs.View.{plain_atom};
ghost use Rattle.mz_flow.specs.Commands.{Adds, Computes, Prints, Reads};
ghost use Rattle.mz_modes.specs.Answers.{Answers};

use crate::block::fields_of;
use mz_modes::RuleFault;
use mz_perm::State;
use mz_tree::{Alike, Atom, Names, Ty};
use std::alloc::Global;

/// Adds the permission.
pub fn add(state: &mut State, atom: Atom) -> Result<(), RuleFault>
    ensures { Answers (λ _. Adds (plain_atom atom) state.old) state.old state.new result }
{
    state.add(atom)?;
    Ok(())
}

/// Adds a block of the constructor with these fields.
pub fn make(
    alloc: Global,
    state: &mut State,
    to: u32,
    con: u32,
    fields: &Names,
) -> Result<(), RuleFault>
    ensures { Answers (λ _. Adds (Has_atom to (Block_type con fields.now None)) state.old) state.old state.new result }
{
    let fields = fields.copy(alloc)?;
    add(
        state,
        Atom::Has {
            name: to,
            ty: Ty::Block {
                con,
                fields,
                adopts: None,
            },
        },
    )
}

/// Adds the result of arithmetic on two integers.
pub fn compute(state: &mut State, to: u32, left: u32, right: u32) -> Result<(), RuleFault>
    ensures { Answers (λ _. Computes state.old to left right) state.old state.new result }
{
    let first = Atom::Has {
        name: left,
        ty: Ty::Int,
    };
    let second = Atom::Has {
        name: right,
        ty: Ty::Int,
    };
    if !state.has(&first) || !state.has(&second) {
        return Err(RuleFault::NoInstance);
    }
    add(
        state,
        Atom::Has {
            name: to,
            ty: Ty::Int,
        },
    )
}

/// Adds the unit result of a print of an integer.
pub fn print(state: &mut State, to: u32, from: u32) -> Result<(), RuleFault>
    ensures { Answers (λ _. Prints state.old to from) state.old state.new result }
{
    let printed = Atom::Has {
        name: from,
        ty: Ty::Int,
    };
    if !state.has(&printed) {
        return Err(RuleFault::NoInstance);
    }
    add(
        state,
        Atom::Has {
            name: to,
            ty: Ty::Unknown,
        },
    )
}

/// Adds that the name equals the one in a field of a block that is held by this permission.
pub fn read(
    state: &mut State,
    to: u32,
    block: u32,
    con: u32,
    field: u32,
    atom: &Atom,
) -> Result<(), RuleFault>
    ensures { Answers (λ _. Reads state.old to block con field (plain_atom atom.now)) state.old state.new result }
{
    let fields = match fields_of(atom, block, con) {
        Some(fields) => fields,
        None => return Err(RuleFault::NoInstance),
    };
    let name = match fields.get(field as usize) {
        Some(name) => *name,
        None => return Err(RuleFault::NoInstance),
    };
    if !state.has(atom) {
        return Err(RuleFault::NoInstance);
    }
    add(
        state,
        Atom::Same {
            left: to,
            right: name,
        },
    )
}
