//! The block of a read, a write or a change of tag: it stands in the state, or a permission at its data type is opened.
ghost use Rattle.std.specs.Prelude.{◌≡◌, ◌<◌, ◌≤◌, ◌++◌, ◌∷◌, IfOk, Some, map, length, take, drop, slice_get};
ghost use Rattle.mz_tree.specs.Plain.{Has_atom, Named_type};
ghost use Rattle.mz_tree.specs.Programs.{Con as PlainCon};
ghost use Rattle.mz_tree.specs.View.{plain_atom, plain_atoms, plain_field};
ghost use Rattle.mz_decl.specs.Contents.{contents, opened};
ghost use Rattle.mz_decl.specs.Declarations.{clause_of};
ghost use Rattle.mz_decl.specs.View.{plain_decls};
ghost use Rattle.mz_modes.specs.Modes.{AreModes};
ghost use Rattle.mz_elab.specs.Scoping.{IsCon};
ghost use Rattle.mz_index.specs.Finding.{InClass, NoneFits};
ghost use Rattle.mz_elab.specs.Acting.{BlockOf};
ghost use Rattle.mz_elab.specs.Finding.{ClosedAt, FindsOr, HoldsNamed, OpensAs, OpensFresh};

use crate::acting::one;
use crate::fault::ElabFault;
use crate::finding::{Sought, first_of};
use crate::fresh::fresh_names;
use crate::goals::subject;
use mz_decl::Decls;
use mz_deriv::Item;
use mz_index::Indexed;
use mz_modes::Modes;
use mz_perm::substitute;
use mz_tree::{Alike, Atom, Atoms, Field, Memory, Names, Place, Ty};
use mz_view::ViewStep;
use sqlite_items::Items;
use std::alloc::Global;

// opens the permission at this place as a block of the constructor, with these names for its fields, and gives the place of
// the block's own permission. What is known then goes into the place of an affine permission, else to the end
pub(crate) fn open_in(
    alloc: Global,
    decls: &Decls,
    modes: &Modes,
    state: &mut Indexed,
    place: usize,
    name: u32,
    number: u32,
    con: u32,
    names: &Names,
) -> Result<usize, Memory>
    requires modes { AreModes (plain_decls decls.now) modes.now }
    requires stands { slice_get state.old place ≡ Some (Has_atom name (Named_type number)) }
    requires declared { IsCon (plain_decls decls.now) con }
    ensures { IfOk result (λ at. OpensAs (plain_decls decls.now) state.old place name number con names.now state.new at) }
{
    let whole = Atom::Has {
        name,
        ty: Ty::Named(number),
    };
    let known = all_known(alloc, decls, name, number, con, names)?;
    if modes.duplicable(&whole) {
        let end = state.len();
        insert_all(state, end, known)?;
        return Ok(end);
    }
    state.take_at(place);
    insert_all(state, place, known)?;
    Ok(place)
}

// what is known of an opened block; nothing where there is no such constructor
fn all_known(
    alloc: Global,
    decls: &Decls,
    name: u32,
    number: u32,
    con: u32,
    names: &Names,
) -> Result<Atoms, Memory>
    ensures { (made : PlainCon) → slice_get (plain_decls decls.now).cons con ≡ Some made → IfOk result (λ it. plain_atoms it ≡ opened name con names.now (clause_of (plain_decls decls.now) number) made.fields) }
{
    match decls.con_at(con) {
        None => Ok(Items::new(alloc)),
        Some(made) => {
            let block = Ty::Block {
                con,
                fields: names.copy(alloc)?,
                adopts: decls.clause_at(number),
            };
            with_contents(
                alloc,
                Atom::Has { name, ty: block },
                made.fields.as_slice(),
                names,
            )
        }
    }
}

// a permission, and then the content of each field, with these names for the fields
fn with_contents(
    alloc: Global,
    block: Atom,
    fields: &[Field],
    names: &Names,
) -> Result<Atoms, Memory>
    ensures { IfOk result (λ it. plain_atoms it ≡ plain_atom block ∷ contents names.now (map plain_field fields.now)) }
{
    let mut all = one(alloc, block)?;
    for i in 0..fields.len() {
        all.push(substitute(alloc, &fields[i].content, names)?)?;
    }
    Ok(all)
}

// puts these permissions at a place, in front of what stands there
fn insert_all(state: &mut Indexed, place: usize, atoms: Atoms) -> Result<(), Memory>
    requires { place ≤ length state.old }
    ensures { IfOk result (λ _. state.new ≡ take place state.old ++ plain_atoms atoms ++ drop place state.old) }
{
    let mut left = atoms;
    while let Some(atom) = left.pop() {
        state.insert(place, atom)?;
    }
    Ok(())
}

// the place of the block of x at the constructor: it stands in x's class, or the first permission of its data type is opened,
// whose only constructor it is
pub(crate) fn find_block(
    alloc: Global,
    decls: &Decls,
    modes: &Modes,
    next: &mut u32,
    state: &mut Indexed,
    name: u32,
    con: u32,
    place: Place,
    items: &mut Items<Item>,
) -> Result<usize, ElabFault>
    requires modes { AreModes (plain_decls decls.now) modes.now }
    requires con { IsCon (plain_decls decls.now) con }
    ensures { FindsOr (plain_decls decls.now) state.old name con next.old place state.new next.new result }
{
    match first_of(alloc, decls, modes, state, name, &Sought::Open(con))? {
        Some(at) => Ok(at),
        None => open_block(alloc, decls, modes, next, state, name, con, place, items),
    }
}

// the same, where no such block stands in the class
fn open_block(
    alloc: Global,
    decls: &Decls,
    modes: &Modes,
    next: &mut u32,
    state: &mut Indexed,
    name: u32,
    con: u32,
    place: Place,
    items: &mut Items<Item>,
) -> Result<usize, ElabFault>
    requires modes { AreModes (plain_decls decls.now) modes.now }
    requires con { IsCon (plain_decls decls.now) con }
    requires alone { NoneFits (InClass state.old name (BlockOf (plain_decls decls.now) con)) state.old }
    ensures { FindsOr (plain_decls decls.now) state.old name con next.old place state.new next.new result }
{
    let number = variety_of(decls, con);
    match closed_at(alloc, decls, modes, state, name, number, con)? {
        None => Err(ElabFault::NoPermission {
            place,
            atom: Atom::Has {
                name,
                ty: Ty::Named(number),
            },
        }),
        Some(at) => {
            write_unfold(state, at, number, *next, items)?;
            Ok(open_fresh(alloc, decls, modes, next, state, at, number, con)?)
        }
    }
}

// the data type of the constructor
pub(crate) fn variety_of(decls: &Decls, con: u32) -> u32
    requires { IsCon (plain_decls decls.now) con }
    ensures { (made : PlainCon) → slice_get (plain_decls decls.now).cons con ≡ Some made → result ≡ made.variety }
{
    match decls.con_at(con) {
        None => 0,
        Some(made) => made.variety,
    }
}

// the place of the first permission at the data type, where the constructor is its only one
fn closed_at(
    alloc: Global,
    decls: &Decls,
    modes: &Modes,
    state: &Indexed,
    name: u32,
    number: u32,
    con: u32,
) -> Result<Option<usize>, Memory>
    requires { AreModes (plain_decls decls.now) modes.now }
    ensures { IfOk result (λ it. ClosedAt (plain_decls decls.now) state.now name number con it) }
{
    match decls.only_at(number) {
        None => Ok(None),
        Some(only) => {
            if only != con {
                return Ok(None);
            }
            first_of(alloc, decls, modes, state, name, &Sought::Closed(number))
        }
    }
}

// writes that the permission at this place is opened
fn write_unfold(
    state: &Indexed,
    at: usize,
    number: u32,
    fresh: u32,
    items: &mut Items<Item>,
) -> Result<(), Memory>
    requires { at < length state.now }
{
    items.push(Item::Step(ViewStep::Unfold {
        name: subject(state.at(at)),
        variety: number,
        fresh,
    }))?;
    Ok(())
}

// opens the permission at this place, which is of the data type, with the next fresh names
fn open_fresh(
    alloc: Global,
    decls: &Decls,
    modes: &Modes,
    next: &mut u32,
    state: &mut Indexed,
    at: usize,
    number: u32,
    con: u32,
) -> Result<usize, Memory>
    requires modes { AreModes (plain_decls decls.now) modes.now }
    requires con { IsCon (plain_decls decls.now) con }
    requires held { HoldsNamed state.old at number }
    ensures { IfOk result (λ it. OpensFresh (plain_decls decls.now) state.old at number con next.old state.new next.new it) }
{
    match decls.con_at(con) {
        None => Err(Memory),
        Some(made) => {
            let name = subject(state.at(at));
            let fresh = fresh_names(alloc, *next, made.fields.len())?;
            let spot = open_in(
                alloc,
                decls,
                modes,
                state,
                at,
                name,
                number,
                con,
                &fresh.names,
            )?;
            *next = fresh.next;
            Ok(spot)
        }
    }
}
