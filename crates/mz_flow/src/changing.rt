//! Rules that change the permission for a mutable block.
ghost use Rattle.mz_tree.specs.View.{plain_atom};
ghost use Rattle.mz_decl.specs.Declarations.{Decls as PlainDecls};
ghost use Rattle.mz_decl.specs.View.{plain_decls};
ghost use Rattle.mz_modes.specs.Modes.{AreModes};
ghost use Rattle.mz_flow.specs.Commands.{Replaces, Writes, LeavesAdopts, Retags};
ghost use Rattle.mz_modes.specs.Answers.{Answers};

use crate::block::{adopts_of, fields_of};
use mz_decl::Decls;
use mz_modes::{Modes, RuleFault};
use mz_perm::State;
use mz_tree::{Alike, Atom, Ty};
use std::alloc::Global;

/// Takes out the permission, adds another for it, and adds the unit result.
fn change(
    alloc: Global,
    state: &mut State,
    to: u32,
    atom: &Atom,
    changed: Atom,
) -> Result<(), RuleFault>
    ensures { Answers (λ which. Replaces which (plain_atom atom.now) (plain_atom changed) state.old to) state.old state.new result }
{
    let mut next = state.copy(alloc)?;
    if !next.remove(atom) {
        return Err(RuleFault::NoInstance);
    }
    next.add(changed)?;
    next.add(Atom::Has {
        name: to,
        ty: Ty::Unknown,
    })?;
    *state = next;
    Ok(())
}

/// Puts a name into a field of a mutable block that is held by this permission.
pub fn write(
    alloc: Global,
    modes: &Modes,
    state: &mut State,
    to: u32,
    block: u32,
    con: u32,
    field: u32,
    from: u32,
    atom: &Atom,
) -> Result<(), RuleFault>
    ensures { (D : PlainDecls) → AreModes D modes.now → Answers (λ which. Writes which D state.old to block con field from (plain_atom atom.now)) state.old state.new result }
{
    let fields = match fields_of(atom, block, con) {
        Some(fields) => fields,
        None => return Err(RuleFault::NoInstance),
    };
    if field as usize >= fields.len() {
        return Err(RuleFault::NoInstance);
    }
    if !modes.is_mutable_con(con) {
        return Err(RuleFault::NoInstance);
    }
    let mut fields = fields.copy(alloc)?;
    fields.set(field as usize, from);
    change(
        alloc,
        state,
        to,
        atom,
        Atom::Has {
            name: block,
            ty: Ty::Block {
                con,
                fields,
                adopts: adopts_of(atom),
            },
        },
    )
}

/// Changes the constructor of a mutable block that is held by this permission.
pub fn retag(
    alloc: Global,
    decls: &Decls,
    modes: &Modes,
    state: &mut State,
    to: u32,
    block: u32,
    old_con: u32,
    new_con: u32,
    atom: &Atom,
) -> Result<(), RuleFault>
    requires { AreModes (plain_decls decls.now) modes.now }
    ensures { Answers (λ which. Retags which (plain_decls decls.now) state.old to block old_con new_con (plain_atom atom.now)) state.old state.new result }
{
    let fields = match fields_of(atom, block, old_con) {
        Some(fields) => fields,
        None => return Err(RuleFault::NoInstance),
    };
    if !modes.is_mutable_con(old_con) {
        return Err(RuleFault::NoInstance);
    }
    if new_con >= decls.cons() {
        return Err(RuleFault::NoInstance);
    }
    let fields = fields.copy(alloc)?;
    let adopts = adopts_left(modes, new_con, adopts_of(atom));
    change(
        alloc,
        state,
        to,
        atom,
        Atom::Has {
            name: block,
            ty: Ty::Block {
                con: new_con,
                fields,
                adopts,
            },
        },
    )
}

// what a block adopts once it has this constructor
fn adopts_left(modes: &Modes, con: u32, adopts: Option<u32>) -> Option<u32>
    ensures { (D : PlainDecls) → AreModes D modes.now → LeavesAdopts D con adopts result }
{
    if modes.is_mutable_con(con) {
        return adopts;
    }
    None
}
