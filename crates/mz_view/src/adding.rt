//! The rules that only add a permission: copy, equal, dynamic and unknown.
ghost use Rattle.mz_tree.specs.View.{plain_atom, plain_atoms};
ghost use Rattle.mz_decl.specs.View.{plain_decls};
ghost use Rattle.mz_tree.specs.Saying.{Says};
ghost use Rattle.mz_modes.specs.Modes.{AreModes};
ghost use Rattle.mz_view.specs.Rules.{Copies, Equates, Dynamics, HoldsExclusive};
ghost use Rattle.mz_view.specs.Answers.{Becomes, IsExclusive};

use crate::ViewFault;
use mz_decl::Decls;
use mz_modes::Modes;
use mz_perm::State;
use mz_tree::{Alike, Atom, Ty};
use std::alloc::Global;

// copies the permission
pub(crate) fn copy(
    alloc: Global,
    decls: &Decls,
    modes: &Modes,
    state: &mut State,
    atom: &Atom,
) -> Result<(), ViewFault>
    requires { AreModes (plain_decls decls.now) modes.now }
    ensures { Becomes (λ which. Copies (plain_decls decls.now) state.old (plain_atom atom.now)) state.old state.new result }
{
    if !modes.duplicable(atom) {
        return Err(ViewFault::NotAnInstance);
    }
    if !state.has(atom) {
        return Err(ViewFault::NotAnInstance);
    }
    state.add(atom.copy(alloc)?)?;
    Ok(())
}

// turns an equation round
pub(crate) fn equate(state: &mut State, left: u32, right: u32) -> Result<(), ViewFault>
    ensures { Becomes (λ which. Equates state.old left right) state.old state.new result }
{
    if left != right && !state.has(&Atom::Same { left, right }) {
        return Err(ViewFault::NotAnInstance);
    }
    state.add(Atom::Same {
        left: right,
        right: left,
    })?;
    Ok(())
}

// says of a name that an adopter may hold it
pub(crate) fn make_dynamic(
    decls: &Decls,
    modes: &Modes,
    state: &mut State,
    name: u32,
) -> Result<(), ViewFault>
    requires { AreModes (plain_decls decls.now) modes.now }
    ensures { Becomes (λ which. Dynamics (plain_decls decls.now) state.old name) state.old state.new result }
{
    if !holds_exclusive(decls, modes, state.atoms(), name) {
        return Err(ViewFault::NotAnInstance);
    }
    state.add(Atom::Has {
        name,
        ty: Ty::Dynamic,
    })?;
    Ok(())
}

// whether the name is held at an exclusive type
fn holds_exclusive(decls: &Decls, modes: &Modes, atoms: &[Atom], name: u32) -> bool
    requires { AreModes (plain_decls decls.now) modes.now }
    ensures { Says result (HoldsExclusive (plain_decls decls.now) (plain_atoms atoms.now) name) }
{
    for i in 0..atoms.len() {
        if is_exclusive(decls, modes, &atoms[i], name) {
            return true;
        }
    }
    false
}

// whether the permission is of this name and of an exclusive type
fn is_exclusive(decls: &Decls, modes: &Modes, atom: &Atom, name: u32) -> bool
    requires { AreModes (plain_decls decls.now) modes.now }
    ensures { Says result (IsExclusive (plain_decls decls.now) name (plain_atom atom.now)) }
{
    match atom {
        Atom::Same { .. } => false,
        Atom::Has { name: subject, ty } => {
            if *subject != name {
                return false;
            }
            modes.exclusive(ty)
        }
    }
}
