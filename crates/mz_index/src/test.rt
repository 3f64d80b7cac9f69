//! What a question asks of a type.
ghost use Rattle.std.specs.Prelude.{◌≡◌, ◌≤◌, ℕ, List, IfOk};
ghost use Rattle.mz_tree.specs.Plain.{Atom as PlainAtom, Named_type};
ghost use Rattle.mz_tree.specs.Saying.{Says};
ghost use Rattle.mz_tree.specs.View.{plain_ty, plain_atom, plain_atoms};
ghost use Rattle.mz_index.specs.Labels.{AreLabels};
ghost use Rattle.mz_index.specs.Finding.{InClass};
ghost use Rattle.mz_index.specs.Questions.{plain_test, FirstFrom};
ghost use Rattle.mz_index.specs.Tests.{IsBlock, IsBlockOf, IsFunction, IsLock, Passes};

use crate::labels::{Link, label, links_of};
use crate::likeness::are_alike;
use mz_tree::{Atom, Memory, Ty};
use std::alloc::Global;

/// A test of a type.
#[derive(Drop)]
pub enum Test {
    /// It is equal to this type, up to names that equations join.
    Alike(Ty),
    /// It is structural.
    Block,
    /// It is structural, of the constructor of this number.
    BlockOf(u32),
    /// It is the data type of this number.
    OfVariety(u32),
    /// It is a signature.
    AnyFunction,
    /// It is of a lock.
    AnyLock,
    /// It is any type.
    Any,
}

// the first of these permissions, from a place on, of a name that is joined to this one and at a type that passes
pub(crate) fn first_from(
    alloc: Global,
    atoms: &[Atom],
    name: u32,
    from: usize,
    test: &Test,
) -> Result<Option<usize>, Memory>
    ensures { IfOk result (λ found. FirstFrom (plain_atoms atoms.now) name from (plain_test test.now) found) }
{
    let links = links_of(alloc, atoms)?;
    for i in from..atoms.len() {
        if suits(alloc, links.as_slice(), &atoms[i], name, test)? {
            return Ok(Some(i));
        }
    }
    Ok(None)
}

// whether the permission is of a name that has the label of this one, and at a type that passes
fn suits(alloc: Global, links: &[Link], atom: &Atom, name: u32, test: &Test) -> Result<bool, Memory>
    ensures { (R : List (PlainAtom ℕ)) → AreLabels links.now R → IfOk result (λ it. Says it (InClass R name (Passes R (plain_test test.now)) (plain_atom atom.now))) }
{
    match atom {
        Atom::Same { .. } => Ok(false),
        Atom::Has { name: subject, ty } => {
            if label(links, name) != label(links, *subject) {
                return Ok(false);
            }
            passes(alloc, links, ty, test)
        }
    }
}

// whether the type passes
fn passes(alloc: Global, links: &[Link], ty: &Ty, test: &Test) -> Result<bool, Memory>
    ensures { (R : List (PlainAtom ℕ)) → AreLabels links.now R → IfOk result (λ it. Says it (Passes R (plain_test test.now) (plain_ty ty.now))) }
{
    match test {
        Test::Alike(other) => are_alike(alloc, links, ty, other),
        Test::Block => Ok(is_block(ty)),
        Test::BlockOf(con) => Ok(is_block_of(ty, *con)),
        Test::OfVariety(number) => Ok(is_variety(ty, *number)),
        Test::AnyFunction => Ok(is_function(ty)),
        Test::AnyLock => Ok(is_lock(ty)),
        Test::Any => Ok(true),
    }
}

fn is_block(ty: &Ty) -> bool
    ensures { Says result (IsBlock (plain_ty ty.now)) }
{
    match ty {
        Ty::Block { .. } => true,
        _ => false,
    }
}

fn is_block_of(ty: &Ty, number: u32) -> bool
    ensures { Says result (IsBlockOf number (plain_ty ty.now)) }
{
    match ty {
        Ty::Block { con, .. } => {
            if *con == number {
                return true;
            }
            false
        }
        _ => false,
    }
}

fn is_variety(ty: &Ty, number: u32) -> bool
    ensures { Says result (plain_ty ty.now ≡ Named_type number) }
{
    match ty {
        Ty::Named(other) => {
            if *other == number {
                return true;
            }
            false
        }
        _ => false,
    }
}

fn is_function(ty: &Ty) -> bool
    ensures { Says result (IsFunction (plain_ty ty.now)) }
{
    match ty {
        Ty::Function(_) => true,
        _ => false,
    }
}

fn is_lock(ty: &Ty) -> bool
    ensures { Says result (IsLock (plain_ty ty.now)) }
{
    match ty {
        Ty::Lock(_) => true,
        _ => false,
    }
}
