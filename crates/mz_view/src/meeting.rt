//! The rule meet.
ghost use Rattle.std.specs.Prelude.{◌≡◌, ◌++◌, IfOk};
ghost use Rattle.mz_tree.specs.Plain.{Has_atom, Block_type};
ghost use Rattle.mz_tree.specs.View.{plain_atom};
ghost use Rattle.mz_decl.specs.View.{plain_decls};
ghost use Rattle.mz_view.specs.Equations.{equations};
ghost use Rattle.mz_view.specs.Rules.{OnBlock, Meets};
ghost use Rattle.mz_view.specs.Answers.{Becomes, Gives};

use crate::ViewFault;
use crate::declared::is_immutable_con;
use mz_decl::Decls;
use mz_perm::State;
use mz_tree::{Atom, Memory, Ty};
use std::alloc::Global;

// equates the names of two structural permissions of one immutable block
pub(crate) fn meet(
    alloc: Global,
    decls: &Decls,
    state: &mut State,
    left: &Atom,
    right: &Atom,
) -> Result<(), ViewFault>
    ensures { Becomes (λ which T. OnBlock (plain_atom left.now) (λ x con ys clause. OnBlock (plain_atom right.now) (λ y other zs another. Meets (plain_decls decls.now) state.old x con ys clause y other zs another T))) state.old state.new result }
{
    match left {
        Atom::Same { .. } => Err(ViewFault::NotAnInstance),
        Atom::Has { name, ty } => match ty {
            Ty::Block {
                con,
                fields,
                adopts,
            } => meet_block(
                alloc,
                decls,
                state,
                left,
                *name,
                *con,
                fields.as_slice(),
                *adopts,
                right,
            ),
            _ => Err(ViewFault::NotAnInstance),
        },
    }
}

// equates the names of the left permission, whose parts these are, and those of the right one
fn meet_block(
    alloc: Global,
    decls: &Decls,
    state: &mut State,
    left: &Atom,
    name: u32,
    con: u32,
    fields: &[u32],
    adopts: Option<u32>,
    right: &Atom,
) -> Result<(), ViewFault>
    requires { plain_atom left.now ≡ Has_atom name (Block_type con fields.now adopts) }
    ensures { Becomes (λ which T. OnBlock (plain_atom right.now) (λ y other zs another. Meets (plain_decls decls.now) state.old name con fields.now adopts y other zs another T)) state.old state.new result }
{
    match right {
        Atom::Same { .. } => Err(ViewFault::NotAnInstance),
        Atom::Has { name: subject, ty } => match ty {
            Ty::Block {
                con: other,
                fields: names,
                ..
            } => {
                if *subject != name || *other != con || !is_immutable_con(decls, con) {
                    return Err(ViewFault::NotAnInstance);
                }
                if !state.has(left) || !state.has(right) {
                    return Err(ViewFault::NotAnInstance);
                }
                *state = with_equations(alloc, state, fields, names.as_slice())?;
                Ok(())
            }
            _ => Err(ViewFault::NotAnInstance),
        },
    }
}

// the state with the equations of these names, place by place
fn with_equations(
    alloc: Global,
    state: &State,
    left: &[u32],
    right: &[u32],
) -> Result<State, Memory>
    ensures { IfOk result (λ it. it ≡ state.now ++ equations left.now right.now) }
{
    let mut next = state.copy(alloc)?;
    for i in 0..left.len() {
        if i < right.len() {
            next.add(Atom::Same {
                left: left[i],
                right: right[i],
            })?;
        }
    }
    Ok(next)
}
