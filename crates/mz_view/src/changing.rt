//! The rules that put a changed permission for one: rename, clause and infield.
ghost use Rattle.std.specs.Prelude.{◌≡◌, IfOk, slice_set};
ghost use Rattle.mz_tree.specs.Plain.{Has_atom, Block_type};
ghost use Rattle.mz_tree.specs.View.{plain_atom};
ghost use Rattle.mz_decl.specs.View.{plain_decls};
ghost use Rattle.mz_tree.specs.Saying.{Says};
ghost use Rattle.mz_modes.specs.Modes.{AreModes};
ghost use Rattle.mz_view.specs.Rules.{OnBlock, Exchanges, Renames, SetsClause, SetsField, subject_of, with_subject};
ghost use Rattle.mz_view.specs.Answers.{Becomes, HasEqual};

use crate::ViewFault;
use mz_decl::Decls;
use mz_modes::Modes;
use mz_perm::State;
use mz_tree::{Alike, Atom, Memory, Names, Ty};
use std::alloc::Global;

// uses the one permission up, and adds the other: it is added first, since only that may fail
fn exchange(
    decls: &Decls,
    modes: &Modes,
    state: &mut State,
    atom: &Atom,
    new: Atom,
) -> Result<(), ViewFault>
    requires { AreModes (plain_decls decls.now) modes.now }
    ensures { Becomes (λ which. Exchanges which (plain_decls decls.now) state.old (plain_atom atom.now) (plain_atom new)) state.old state.new result }
{
    if !state.has(atom) {
        return Err(ViewFault::NotAnInstance);
    }
    state.add(new)?;
    if modes.duplicable(atom) {
        return Ok(());
    }
    state.remove(atom);
    Ok(())
}

// gives the permission another subject, which equals its own
pub(crate) fn rename(
    alloc: Global,
    decls: &Decls,
    modes: &Modes,
    state: &mut State,
    atom: &Atom,
    to: u32,
) -> Result<(), ViewFault>
    requires { AreModes (plain_decls decls.now) modes.now }
    ensures { Becomes (λ which. Renames which (plain_decls decls.now) state.old (plain_atom atom.now) to) state.old state.new result }
{
    let equal = Atom::Same {
        left: subject(atom),
        right: to,
    };
    if !state.has(&equal) {
        return Err(ViewFault::NotAnInstance);
    }
    let new = with_subject(alloc, atom, to)?;
    exchange(decls, modes, state, atom, new)
}

// what has the type, or the left side
fn subject(atom: &Atom) -> u32
    ensures { result ≡ subject_of (plain_atom atom.now) }
{
    match atom {
        Atom::Has { name, .. } => *name,
        Atom::Same { left, .. } => *left,
    }
}

// a copy of the permission with another subject
fn with_subject(alloc: Global, atom: &Atom, to: u32) -> Result<Atom, Memory>
    ensures { IfOk result (λ it. plain_atom it ≡ with_subject to (plain_atom atom.now)) }
{
    match atom {
        Atom::Has { ty, .. } => Ok(Atom::Has {
            name: to,
            ty: ty.copy(alloc)?,
        }),
        Atom::Same { right, .. } => Ok(Atom::Same {
            left: to,
            right: *right,
        }),
    }
}

// sets what the block of the structural permission adopts
pub(crate) fn set_clause(
    alloc: Global,
    decls: &Decls,
    modes: &Modes,
    state: &mut State,
    atom: &Atom,
    adopts: u32,
) -> Result<(), ViewFault>
    requires { AreModes (plain_decls decls.now) modes.now }
    ensures { Becomes (λ which T. OnBlock (plain_atom atom.now) (λ x con ys clause. SetsClause which (plain_decls decls.now) state.old adopts x con ys clause T)) state.old state.new result }
{
    match atom {
        Atom::Same { .. } => Err(ViewFault::NotAnInstance),
        Atom::Has { name, ty } => match ty {
            Ty::Block {
                con,
                fields,
                adopts: clause,
            } => {
                if clause.is_some() {
                    return Err(ViewFault::NotAnInstance);
                }
                if !modes.is_mutable_con(*con) {
                    return Err(ViewFault::NotAnInstance);
                }
                if !modes.is_mutable(adopts) {
                    return Err(ViewFault::NotAnInstance);
                }
                let new = block(*name, *con, fields.copy(alloc)?, Some(adopts));
                exchange(decls, modes, state, atom, new)
            }
            _ => Err(ViewFault::NotAnInstance),
        },
    }
}

// a structural permission
fn block(name: u32, con: u32, fields: Names, adopts: Option<u32>) -> Atom
    ensures { plain_atom result ≡ Has_atom name (Block_type con fields adopts) }
{
    Atom::Has {
        name,
        ty: Ty::Block {
            con,
            fields,
            adopts,
        },
    }
}

// puts a name for that of a field of the structural permission, which equals it
pub(crate) fn set_field(
    alloc: Global,
    decls: &Decls,
    modes: &Modes,
    state: &mut State,
    atom: &Atom,
    field: u32,
    to: u32,
) -> Result<(), ViewFault>
    requires { AreModes (plain_decls decls.now) modes.now }
    ensures { Becomes (λ which T. OnBlock (plain_atom atom.now) (λ x con ys clause. SetsField which (plain_decls decls.now) state.old field to x con ys clause T)) state.old state.new result }
{
    match atom {
        Atom::Same { .. } => Err(ViewFault::NotAnInstance),
        Atom::Has { name, ty } => match ty {
            Ty::Block {
                con,
                fields,
                adopts,
            } => {
                if !is_equal_field(state, fields.as_slice(), field, to) {
                    return Err(ViewFault::NotAnInstance);
                }
                let mut names = fields.copy(alloc)?;
                names.set(field as usize, to);
                let new = block(*name, *con, names, *adopts);
                exchange(decls, modes, state, atom, new)
            }
            _ => Err(ViewFault::NotAnInstance),
        },
    }
}

// whether there is such a field, and an equation of its name and this one is held
fn is_equal_field(state: &State, names: &[u32], field: u32, to: u32) -> bool
    ensures { Says result (HasEqual state.now names.now field to) }
{
    match names.get(field as usize) {
        None => false,
        Some(name) => {
            if state.has(&Atom::Same {
                left: *name,
                right: to,
            }) {
                return true;
            }
            false
        }
    }
}
