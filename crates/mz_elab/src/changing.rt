//! Blocks that are read, and those that are changed in their place.
ghost use Rattle.std.specs.Prelude.{◌≡◌, ◌<◌, ◌++◌, ◌∷◌, [], ℕ, List, Option, Some, IfOk, length, slice_get, slice_set};
ghost use Rattle.mz_tree.specs.Plain.{Block_type, Has_atom, Unknown_type};
ghost use Rattle.mz_tree.specs.Code.{Read_op, Write_op, Retag_op};
ghost use Rattle.mz_tree.specs.View.{plain_atom};
ghost use Rattle.mz_decl.specs.Declarations.{Decls as PlainDecls};
ghost use Rattle.mz_decl.specs.View.{plain_decls};
ghost use Rattle.mz_flow.specs.Commands.{LeavesAdopts};
ghost use Rattle.mz_modes.specs.Modes.{AreModes};
ghost use Rattle.mz_elab.specs.Doing.{ActsOr};
ghost use Rattle.mz_elab.specs.Scoping.{HasField, IsCon};
ghost use Rattle.mz_elab.specs.Changing.{ChangesOr, IsRetagged};

use crate::blocks::{find_block, variety_of};
use crate::doing::write_do;
use crate::fault::ElabFault;
use crate::goals::subject;
use crate::lending::{do_lent, lend, lend_back, with_name};
use mz_decl::Decls;
use mz_deriv::Item;
use mz_index::Indexed;
use mz_modes::Modes;
use mz_tree::{Alike, Atom, Memory, Names, Place, Ty};
use sqlite_items::Items;
use std::alloc::Global;

// a field is read
pub(crate) fn read(
    alloc: Global,
    decls: &Decls,
    modes: &Modes,
    bound: &[u32],
    next: &mut u32,
    state: &mut Indexed,
    to: u32,
    block: u32,
    con: u32,
    field: u32,
    place: Place,
    items: &mut Items<Item>,
) -> Result<(), ElabFault>
    requires modes { AreModes (plain_decls decls.now) modes.now }
    requires field { HasField (plain_decls decls.now) con field }
    ensures { ActsOr (plain_decls decls.now) state.old next.old to (Read_op block con field) place state.new next.new result }
{
    let at = find_block(alloc, decls, modes, next, state, block, con, place, items)?;
    let value = name_in(state, at, field);
    do_lent(
        alloc,
        decls,
        modes,
        bound,
        *next,
        state,
        state.at(at),
        block,
        items,
    )?;
    state.add(Atom::Same {
        left: to,
        right: value,
    })?;
    Ok(())
}

// the name of a field of the block at this place
fn name_in(state: &Indexed, at: usize, field: u32) -> u32
    requires { at < length state.now }
    ensures { (x con : ℕ) (ys : List ℕ) (clause : Option ℕ) (y : ℕ) → slice_get state.now at ≡ Some (Has_atom x (Block_type con ys clause)) → slice_get ys field ≡ Some y → result ≡ y }
{
    match state.at(at) {
        Atom::Has { ty, .. } => match ty {
            Ty::Block { fields, .. } => match fields.get(field as usize) {
                Some(name) => *name,
                None => 0,
            },
            _ => 0,
        },
        Atom::Same { .. } => 0,
    }
}

// a field is written
pub(crate) fn write(
    alloc: Global,
    decls: &Decls,
    modes: &Modes,
    bound: &[u32],
    next: &mut u32,
    state: &mut Indexed,
    to: u32,
    block: u32,
    con: u32,
    field: u32,
    from: u32,
    place: Place,
    items: &mut Items<Item>,
) -> Result<(), ElabFault>
    requires modes { AreModes (plain_decls decls.now) modes.now }
    requires field { HasField (plain_decls decls.now) con field }
    ensures { ActsOr (plain_decls decls.now) state.old next.old to (Write_op block con field from) place state.new next.new result }
{
    let at = find_mutable(alloc, decls, modes, next, state, block, con, place, items)?;
    let old = state.at(at).copy(alloc)?;
    let new = with_field(alloc, &old, field, from)?;
    put(
        alloc, decls, modes, bound, *next, state, at, block, &old, new, items,
    )?;
    add_unit(state, to)?;
    Ok(())
}

// a block gets the tag of another constructor
pub(crate) fn retag(
    alloc: Global,
    decls: &Decls,
    modes: &Modes,
    bound: &[u32],
    next: &mut u32,
    state: &mut Indexed,
    to: u32,
    block: u32,
    con: u32,
    tag: u32,
    place: Place,
    items: &mut Items<Item>,
) -> Result<(), ElabFault>
    requires modes { AreModes (plain_decls decls.now) modes.now }
    requires con { IsCon (plain_decls decls.now) con }
    ensures { ActsOr (plain_decls decls.now) state.old next.old to (Retag_op block con tag) place state.new next.new result }
{
    let at = find_mutable(alloc, decls, modes, next, state, block, con, place, items)?;
    let old = state.at(at).copy(alloc)?;
    let new = with_tag(alloc, modes, &old, tag)?;
    put(
        alloc, decls, modes, bound, *next, state, at, block, &old, new, items,
    )?;
    add_unit(state, to)?;
    Ok(())
}

// the place of the block of a constructor of a mutable data type
fn find_mutable(
    alloc: Global,
    decls: &Decls,
    modes: &Modes,
    next: &mut u32,
    state: &mut Indexed,
    block: u32,
    con: u32,
    place: Place,
    items: &mut Items<Item>,
) -> Result<usize, ElabFault>
    requires modes { AreModes (plain_decls decls.now) modes.now }
    requires con { IsCon (plain_decls decls.now) con }
    ensures { ChangesOr (plain_decls decls.now) state.old block con next.old place state.new next.new result }
{
    if !modes.is_mutable_con(con) {
        return Err(ElabFault::NoPermission {
            place,
            atom: Atom::Has {
                name: block,
                ty: Ty::Named(variety_of(decls, con)),
            },
        });
    }
    find_block(alloc, decls, modes, next, state, block, con, place, items)
}

// the permission of a block with this name in a field
fn with_field(alloc: Global, atom: &Atom, field: u32, name: u32) -> Result<Atom, Memory>
    ensures { (x con : ℕ) (ys : List ℕ) (clause : Option ℕ) → plain_atom atom.now ≡ Has_atom x (Block_type con ys clause) → field < length ys → IfOk result (λ it. plain_atom it ≡ Has_atom x (Block_type con (slice_set ys field name) clause)) }
{
    match atom {
        Atom::Has { name: own, ty } => match ty {
            Ty::Block {
                con,
                fields,
                adopts,
            } => Ok(Atom::Has {
                name: *own,
                ty: Ty::Block {
                    con: *con,
                    fields: with_name_at(alloc, fields, field as usize, name)?,
                    adopts: *adopts,
                },
            }),
            _ => atom.copy(alloc),
        },
        Atom::Same { .. } => atom.copy(alloc),
    }
}

// the names with this one at a place
fn with_name_at(alloc: Global, names: &Names, at: usize, name: u32) -> Result<Names, Memory>
    ensures { at < length names.now → IfOk result (λ it. it ≡ slice_set names.now at name) }
{
    let mut changed = names.copy(alloc)?;
    if at < changed.len() {
        changed.set(at, name);
    }
    Ok(changed)
}

// the permission of a block with another tag: what it adopts stays where the new constructor's data type is mutable
fn with_tag(alloc: Global, modes: &Modes, atom: &Atom, tag: u32) -> Result<Atom, Memory>
    ensures { (D : PlainDecls) (x con : ℕ) (ys : List ℕ) (clause : Option ℕ) → AreModes D modes.now → plain_atom atom.now ≡ Has_atom x (Block_type con ys clause) → IfOk result (λ it. IsRetagged D x tag ys clause (plain_atom it)) }
{
    match atom {
        Atom::Has { name, ty } => match ty {
            Ty::Block { fields, adopts, .. } => Ok(Atom::Has {
                name: *name,
                ty: Ty::Block {
                    con: tag,
                    fields: fields.copy(alloc)?,
                    adopts: left(modes, tag, *adopts),
                },
            }),
            _ => atom.copy(alloc),
        },
        Atom::Same { .. } => atom.copy(alloc),
    }
}

// what a block of the constructor still adopts
fn left(modes: &Modes, tag: u32, adopts: Option<u32>) -> Option<u32>
    ensures { (D : PlainDecls) → AreModes D modes.now → LeavesAdopts D tag adopts result }
{
    if modes.is_mutable_con(tag) {
        return adopts;
    }
    None
}

// the permission at this place is changed, and the command written
fn put(
    alloc: Global,
    decls: &Decls,
    modes: &Modes,
    bound: &[u32],
    next: u32,
    state: &mut Indexed,
    at: usize,
    block: u32,
    old: &Atom,
    new: Atom,
    items: &mut Items<Item>,
) -> Result<(), Memory>
    requires modes { AreModes (plain_decls decls.now) modes.now }
    requires within { at < length state.old }
    ensures { IfOk result (λ _. state.new ≡ slice_set state.old at (plain_atom new)) }
{
    lend(alloc, decls, modes, bound, next, state, old, block, items)?;
    write_do(alloc, Some(with_name(alloc, old, block)?), items)?;
    let lent = with_name(alloc, &new, block)?;
    lend_back(alloc, &lent, subject(old), items)?;
    state.take_at(at);
    state.insert(at, new)?;
    Ok(())
}

// the command's name gets `()`
fn add_unit(state: &mut Indexed, to: u32) -> Result<(), Memory>
    ensures { IfOk result (λ _. state.new ≡ state.old ++ Has_atom to Unknown_type ∷ []) }
{
    state.add(Atom::Has {
        name: to,
        ty: Ty::Unknown,
    })
}
