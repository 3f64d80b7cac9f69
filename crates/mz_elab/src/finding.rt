//! The first permission of a sort in the class of a name.
//!
//! The index finds permissions by class and by a test of their type. What needs declarations or modes is looked at here, and
//! where that doesn't fit the index is asked again from the next place.
ghost use Rattle.std.specs.Prelude.{◌≡◌, ℕ, List, IfOk};
ghost use Rattle.mz_tree.specs.Saying.{Says};
ghost use Rattle.mz_tree.specs.Plain.{Block_type, Named_type, Unknown_type};
ghost use Rattle.mz_tree.specs.View.{plain_atom, plain_ty};
ghost use Rattle.mz_decl.specs.View.{plain_decls};
ghost use Rattle.mz_modes.specs.Modes.{AreModes};
ghost use Rattle.mz_index.specs.Questions.{plain_test};
ghost use Rattle.mz_decl.specs.Declarations.{Decls as PlainDecls};
ghost use Rattle.mz_elab.specs.Acting.{AdoptsSome, BlockOf, GuardsSome, SignedWith};
ghost use Rattle.mz_elab.specs.Opening.{BlockIn};
ghost use Rattle.mz_elab.specs.Scoping.{IsConOf};
ghost use Rattle.mz_elab.specs.Sought.{AdoptedBy, ByDataAt, FindsOr, FirstAt, HasCount, HasFields, Held_sought, IsSought, OfTy, plain_sought, test_for};

use crate::fault::ElabFault;
use crate::outer::type_names;
use mz_decl::Decls;
use mz_index::{Indexed, Test};
use mz_modes::Modes;
use mz_tree::{Atom, Memory, Names, Place, Ty};
use std::alloc::Global;

// what is looked for
#[derive(Drop)]
pub(crate) enum Sought {
    Open(u32),
    Closed(u32),
    Known(u32),
    Signed(usize),
    Adopter,
    AnyLock,
    Held(Names),
}

// the place of the first permission of the sort
pub(crate) fn first_of(
    alloc: Global,
    decls: &Decls,
    modes: &Modes,
    state: &Indexed,
    name: u32,
    sought: &Sought,
) -> Result<Option<usize>, Memory>
    requires { AreModes (plain_decls decls.now) modes.now }
    ensures { IfOk result (λ it. FirstAt state.now name (IsSought (plain_decls decls.now) (plain_sought sought.now)) it) }
{
    let test = test_for(sought);
    first_by(alloc, decls, modes, state, name, sought, &test)
}

// the same for a command, which lacks the name at `unknown` where there is none
pub(crate) fn find(
    alloc: Global,
    decls: &Decls,
    modes: &Modes,
    state: &Indexed,
    name: u32,
    sought: &Sought,
    place: Place,
) -> Result<usize, ElabFault>
    requires { AreModes (plain_decls decls.now) modes.now }
    ensures { FindsOr (plain_decls decls.now) state.now name (plain_sought sought.now) place result }
{
    match first_of(alloc, decls, modes, state, name, sought)? {
        Some(found) => Ok(found),
        None => Err(ElabFault::NoPermission {
            place,
            atom: Atom::Has {
                name,
                ty: Ty::Unknown,
            },
        }),
    }
}

// the same, with what the index is asked for
fn first_by(
    alloc: Global,
    decls: &Decls,
    modes: &Modes,
    state: &Indexed,
    name: u32,
    sought: &Sought,
    test: &Test,
) -> Result<Option<usize>, Memory>
    requires modes { AreModes (plain_decls decls.now) modes.now }
    requires test { plain_test test.now ≡ test_for (plain_sought sought.now) }
    ensures { IfOk result (λ it. FirstAt state.now name (IsSought (plain_decls decls.now) (plain_sought sought.now)) it) }
{
    let count = state.len();
    let mut from = 0;
    while let Some(place) = state.first(alloc, name, from, test)? {
        if suits(decls, modes, state.at(place), sought) {
            return Ok(Some(place));
        }
        from = place + 1;
    }
    Ok(None)
}

// what the index is asked for
fn test_for(sought: &Sought) -> Test
    ensures { plain_test result ≡ test_for (plain_sought sought.now) }
{
    match sought {
        Sought::Open(con) => Test::BlockOf(*con),
        Sought::Closed(number) => Test::OfVariety(*number),
        Sought::Known(_) => Test::Block,
        Sought::Signed(_) => Test::AnyFunction,
        Sought::Adopter => Test::Any,
        Sought::AnyLock => Test::AnyLock,
        Sought::Held(_) => Test::Any,
    }
}

// whether the permission is of the sort
fn suits(decls: &Decls, modes: &Modes, atom: &Atom, sought: &Sought) -> bool
    requires { AreModes (plain_decls decls.now) modes.now }
    ensures { Says result (OfTy (IsSought (plain_decls decls.now) (plain_sought sought.now)) (plain_atom atom.now)) }
{
    match atom {
        Atom::Same { .. } => false,
        Atom::Has { name: _, ty } => is_sought(decls, modes, ty, sought),
    }
}

// whether its type is
fn is_sought(decls: &Decls, modes: &Modes, ty: &Ty, sought: &Sought) -> bool
    requires { AreModes (plain_decls decls.now) modes.now }
    ensures { Says result (IsSought (plain_decls decls.now) (plain_sought sought.now) (plain_ty ty.now)) }
{
    match sought {
        Sought::Open(con) => is_open(decls, ty, *con),
        Sought::Closed(number) => is_closed(ty, *number),
        Sought::Known(number) => is_known(decls, ty, *number),
        Sought::Signed(count) => is_signed(decls, ty, *count),
        Sought::Adopter => is_adopter(decls, modes, ty),
        Sought::AnyLock => is_lock(ty),
        Sought::Held(names) => is_held(ty, names.as_slice()),
    }
}

// a block of that constructor, with a name for each field
fn is_open(decls: &Decls, ty: &Ty, con: u32) -> bool
    ensures { Says result (BlockOf (plain_decls decls.now) con (plain_ty ty.now)) }
{
    match ty {
        Ty::Block {
            con: found,
            fields,
            ..
        } => *found == con && has_fields(decls, con, fields),
        _ => false,
    }
}

// whether the constructor has so many fields
fn has_fields(decls: &Decls, con: u32, names: &Names) -> bool
    ensures { Says result (HasFields (plain_decls decls.now) con names.now) }
{
    match decls.con_at(con) {
        None => false,
        Some(made) => names.len() == made.fields.len(),
    }
}

fn is_closed(ty: &Ty, number: u32) -> bool
    ensures { Says result (plain_ty ty.now ≡ Named_type number) }
{
    match ty {
        Ty::Named(found) => *found == number,
        _ => false,
    }
}

// a block of a constructor of that data type
fn is_known(decls: &Decls, ty: &Ty, number: u32) -> bool
    ensures { Says result (BlockIn (plain_decls decls.now) number (plain_ty ty.now)) }
{
    match ty {
        Ty::Block { con, .. } => is_con_of(decls, *con, number),
        _ => false,
    }
}

// whether the constructor is one of the data type
pub(crate) fn is_con_of(decls: &Decls, con: u32, number: u32) -> bool
    ensures { Says result (IsConOf (plain_decls decls.now) number con) }
{
    match decls.con_at(con) {
        None => false,
        Some(made) => made.variety == number,
    }
}

// a signature with so many parameters
fn is_signed(decls: &Decls, ty: &Ty, count: usize) -> bool
    ensures { Says result (SignedWith (plain_decls decls.now) count (plain_ty ty.now)) }
{
    match ty {
        Ty::Function(number) => has_count(decls, *number, count),
        _ => false,
    }
}

fn has_count(decls: &Decls, number: u32, count: usize) -> bool
    ensures { Says result (HasCount (plain_decls decls.now) number count) }
{
    match decls.sig_at(number) {
        None => false,
        Some(sig) => count == sig.count as usize,
    }
}

// an exclusive type that says what its blocks adopt
fn is_adopter(decls: &Decls, modes: &Modes, ty: &Ty) -> bool
    requires { AreModes (plain_decls decls.now) modes.now }
    ensures { Says result (AdoptsSome (plain_decls decls.now) (plain_ty ty.now)) }
{
    match adopts(decls, ty) {
        None => false,
        Some(_) => modes.exclusive(ty),
    }
}

// what the blocks of a type adopt: by itself or by its data type
pub(crate) fn adopts(decls: &Decls, ty: &Ty) -> Option<u32>
    ensures { AdoptedBy (plain_decls decls.now) (plain_ty ty.now) result }
{
    match ty {
        Ty::Named(number) => decls.clause_at(*number),
        Ty::Block { con, adopts, .. } => block_adopts(decls, *con, *adopts),
        _ => None,
    }
}

// the same of a block of the constructor, which may say it itself
fn block_adopts(decls: &Decls, con: u32, own: Option<u32>) -> Option<u32>
    ensures { (ys : List ℕ) → AdoptedBy (plain_decls decls.now) (Block_type con ys own) result }
{
    match own {
        None => adopts_by_data(decls, con),
        Some(adopted) => Some(adopted),
    }
}

fn adopts_by_data(decls: &Decls, con: u32) -> Option<u32>
    ensures { ByDataAt (plain_decls decls.now) con result }
{
    match decls.con_at(con) {
        None => None,
        Some(made) => decls.clause_at(made.variety),
    }
}

fn is_lock(ty: &Ty) -> bool
    ensures { Says result (GuardsSome (plain_ty ty.now)) }
{
    match ty {
        Ty::Lock(_) => true,
        _ => false,
    }
}

// a type that says something and names these names alone
fn is_held(ty: &Ty, names: &[u32]) -> bool
    ensures { (D : PlainDecls) → Says result (IsSought D (Held_sought names.now) (plain_ty ty.now)) }
{
    if is_unknown(ty) {
        return false;
    }
    type_names(ty, names, 0)
}

fn is_unknown(ty: &Ty) -> bool
    ensures { Says result (plain_ty ty.now ≡ Unknown_type) }
{
    match ty {
        Ty::Unknown => true,
        _ => false,
    }
}
