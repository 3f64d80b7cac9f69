//! Blocks that are given to an adopter, and taken from one.
ghost use Rattle.std.specs.Prelude.{◌≡◌, ◌<◌, ℕ, IfOk, Some, length, slice_get, slice_set};
ghost use Rattle.mz_tree.specs.Plain.{Atom as PlainAtom, Ty as PlainTy, Dynamic_type, Named_type, Has_atom};
ghost use Rattle.mz_tree.specs.Saying.{Says};
ghost use Rattle.mz_tree.specs.Code.{Give_op, Take_op};
ghost use Rattle.mz_tree.specs.View.{plain_atom, plain_ty};
ghost use Rattle.mz_decl.specs.View.{plain_decls};
ghost use Rattle.mz_modes.specs.Modes.{AreModes};
ghost use Rattle.mz_elab.specs.Acting.{AdoptsBy, with_clause};
ghost use Rattle.mz_elab.specs.Doing.{ActsOr};
ghost use Rattle.mz_elab.specs.Adopting.{AdopterOr, BesideOr, IsBare, NeedOr, atom_clause};

use crate::doing::add_with_unit;
use crate::fault::ElabFault;
use crate::finding::{Sought, adopts, find};
use crate::goals::meet_goal;
use crate::lending::do_lent;
use crate::thinning::write_steps;
use mz_decl::Decls;
use mz_deriv::Item;
use mz_goal::need_beside;
use mz_index::Indexed;
use mz_modes::Modes;
use mz_tree::{Alike, Atom, Memory, Place, Ty};
use mz_view::ViewStep;
use sqlite_items::Items;
use std::alloc::Global;

// the place of an adopter, and the data type that it adopts
#[derive(Drop)]
struct Adopter {
    place: usize,
    adopted: u32,
}

// a block is given
pub(crate) fn give_block(
    alloc: Global,
    decls: &Decls,
    modes: &Modes,
    bound: &[u32],
    next: u32,
    state: &mut Indexed,
    to: u32,
    block: u32,
    adopter: u32,
    place: Place,
    items: &mut Items<Item>,
) -> Result<(), ElabFault>
    requires { AreModes (plain_decls decls.now) modes.now }
    ensures { ActsOr (plain_decls decls.now) state.old next to (Give_op block adopter) place state.new next result }
{
    let found = find_adopter(alloc, decls, modes, state, adopter, place, items)?;
    let held = state.at(found.place).copy(alloc)?;
    let goal = named(block, found.adopted);
    meet_beside(
        alloc,
        decls,
        modes,
        bound,
        next,
        state,
        found.place,
        goal,
        place,
        items,
    )?;
    do_lent(
        alloc, decls, modes, bound, next, state, &held, adopter, items,
    )?;
    add_with_unit(state, dynamic(block), to)?;
    Ok(())
}

// a block is taken
pub(crate) fn take_block(
    alloc: Global,
    decls: &Decls,
    modes: &Modes,
    bound: &[u32],
    next: u32,
    state: &mut Indexed,
    to: u32,
    block: u32,
    adopter: u32,
    place: Place,
    items: &mut Items<Item>,
) -> Result<(), ElabFault>
    requires { AreModes (plain_decls decls.now) modes.now }
    ensures { ActsOr (plain_decls decls.now) state.old next to (Take_op block adopter) place state.new next result }
{
    let found = find_adopter(alloc, decls, modes, state, adopter, place, items)?;
    let held = state.at(found.place).copy(alloc)?;
    let goal = dynamic(block);
    meet_or(alloc, decls, modes, bound, next, state, goal, place, items)?;
    do_lent(
        alloc, decls, modes, bound, next, state, &held, adopter, items,
    )?;
    add_with_unit(state, named(block, found.adopted), to)?;
    Ok(())
}

// the block at the data type; that it may be adopted
fn named(block: u32, number: u32) -> Atom
    ensures { plain_atom result ≡ Has_atom block (Named_type number) }
{
    Atom::Has {
        name: block,
        ty: Ty::Named(number),
    }
}

fn dynamic(block: u32) -> Atom
    ensures { plain_atom result ≡ Has_atom block Dynamic_type }
{
    Atom::Has {
        name: block,
        ty: Ty::Dynamic,
    }
}

// the first adopter of the name's class, which says what it adopts from then on
fn find_adopter(
    alloc: Global,
    decls: &Decls,
    modes: &Modes,
    state: &mut Indexed,
    name: u32,
    place: Place,
    items: &mut Items<Item>,
) -> Result<Adopter, ElabFault>
    requires { AreModes (plain_decls decls.now) modes.now }
    ensures { AdopterOr (plain_decls decls.now) state.old name place state.new result }
{
    let sought = Sought::Adopter;
    let at = find(alloc, decls, modes, state, name, &sought, place)?;
    let adopted = adopted_at(decls, state, at);
    say_clause(alloc, state, at, adopted, items)?;
    Ok(Adopter { place: at, adopted })
}

// what the permission at this place adopts
fn adopted_at(decls: &Decls, state: &Indexed, place: usize) -> u32
    requires { place < length state.now }
    ensures { (x : ℕ) (t : PlainTy ℕ) (u : ℕ) → slice_get state.now place ≡ Some (Has_atom x t) → AdoptsBy (plain_decls decls.now) u t → AdoptsBy (plain_decls decls.now) result t }
{
    match state.at(place) {
        Atom::Has { name: _, ty } => adopted(decls, ty),
        Atom::Same { .. } => 0,
    }
}

// what a type adopts that adopts some data type
fn adopted(decls: &Decls, ty: &Ty) -> u32
    ensures { (u : ℕ) → AdoptsBy (plain_decls decls.now) u (plain_ty ty.now) → AdoptsBy (plain_decls decls.now) result (plain_ty ty.now) }
{
    match adopts(decls, ty) {
        Some(found) => found,
        None => 0,
    }
}

// the permission at this place says what it adopts from then on
fn say_clause(
    alloc: Global,
    state: &mut Indexed,
    place: usize,
    adopted: u32,
    items: &mut Items<Item>,
) -> Result<(), Memory>
    requires { place < length state.old }
    ensures { (a : PlainAtom ℕ) → slice_get state.old place ≡ Some a → IfOk result (λ _. state.new ≡ slice_set state.old place (atom_clause adopted a)) }
{
    write_clause(alloc, state.at(place), adopted, items)?;
    let old = state.take_at(place);
    state.insert(place, atom_clause(old, adopted))?;
    Ok(())
}

// writes the step by which it does, where it doesn't say it yet
fn write_clause(
    alloc: Global,
    atom: &Atom,
    adopted: u32,
    items: &mut Items<Item>,
) -> Result<(), Memory> {
    if is_bare(atom) {
        items.push(Item::Step(ViewStep::Clause {
            atom: atom.copy(alloc)?,
            adopts: adopted,
        }))?;
    }
    Ok(())
}

// whether it is a block that doesn't say what it adopts
fn is_bare(atom: &Atom) -> bool
    ensures { Says result (IsBare (plain_atom atom.now)) }
{
    match atom {
        Atom::Has {
            name: _,
            ty: Ty::Block { adopts: None, .. },
        } => true,
        _ => false,
    }
}

// the permission with what it adopts, where it is a block that doesn't say it
fn atom_clause(atom: Atom, adopted: u32) -> Atom
    ensures { plain_atom result ≡ atom_clause adopted (plain_atom atom) }
{
    match atom {
        Atom::Has { name, ty } => Atom::Has {
            name,
            ty: with_clause(ty, adopted),
        },
        Atom::Same { left, right } => Atom::Same { left, right },
    }
}

fn with_clause(ty: Ty, adopted: u32) -> Ty
    ensures { plain_ty result ≡ with_clause adopted (plain_ty ty) }
{
    match ty {
        Ty::Block {
            con,
            fields,
            adopts,
        } => Ty::Block {
            con,
            fields,
            adopts: Some(adopts.unwrap_or(adopted)),
        },
        other => other,
    }
}

// meets the goal with the permission at this place set aside
fn meet_beside(
    alloc: Global,
    decls: &Decls,
    modes: &Modes,
    bound: &[u32],
    next: u32,
    state: &mut Indexed,
    at: usize,
    goal: Atom,
    place: Place,
    items: &mut Items<Item>,
) -> Result<(), ElabFault>
    requires modes { AreModes (plain_decls decls.now) modes.now }
    requires within { at < length state.old }
    ensures { (a : PlainAtom ℕ) → slice_get state.old at ≡ Some a → BesideOr (plain_decls decls.now) state.old at a (plain_atom goal) place state.new result }
{
    let mut steps = Items::new(alloc);
    if !need_beside(alloc, decls, modes, state, at, &goal, &mut steps)? {
        return Err(ElabFault::NoPermission { place, atom: goal });
    }
    write_steps(alloc, modes, bound, next, steps, items)?;
    Ok(())
}

// meets the goal
fn meet_or(
    alloc: Global,
    decls: &Decls,
    modes: &Modes,
    bound: &[u32],
    next: u32,
    state: &mut Indexed,
    goal: Atom,
    place: Place,
    items: &mut Items<Item>,
) -> Result<(), ElabFault>
    requires { AreModes (plain_decls decls.now) modes.now }
    ensures { NeedOr (plain_decls decls.now) state.old (plain_atom goal) place state.new result }
{
    if meet_goal(alloc, decls, modes, bound, next, state, &goal, items)? {
        return Ok(());
    }
    Err(ElabFault::NoPermission { place, atom: goal })
}
