//! One view step.
ghost use Rattle.mz_decl.specs.View.{plain_decls};
ghost use Rattle.mz_modes.specs.Modes.{AreModes};
ghost use Rattle.mz_view.specs.Steps.{plain_step};
ghost use Rattle.mz_view.specs.Rules.{ViewBy};
ghost use Rattle.mz_view.specs.Answers.{Becomes};

use crate::adding::{copy, equate, make_dynamic};
use crate::changing::{rename, set_clause, set_field};
use crate::folding::fold;
use crate::meeting::meet;
use crate::opening::unfold;
use crate::spots::set_spot;
use crate::{ViewFault, ViewStep};
use mz_decl::Decls;
use mz_modes::Modes;
use mz_perm::State;
use mz_tree::{Atom, Ty};
use std::alloc::Global;

/// Makes the view step, where its rule has an instance in the state: the state is then the rule's, with what is new at
/// its end, and where one of several equal permissions goes it is the first. Else, or where memory is wanting, the state
/// stays as it is.
pub fn apply(
    alloc: Global,
    decls: &Decls,
    modes: &Modes,
    state: &mut State,
    step: &ViewStep,
) -> Result<(), ViewFault>
    requires { AreModes (plain_decls decls.now) modes.now }
    ensures { Becomes (λ which. ViewBy which (plain_decls decls.now) state.old (plain_step step.now)) state.old state.new result }
{
    match step {
        ViewStep::Drop { atom } => {
            if state.remove(atom) {
                return Ok(());
            }
            Err(ViewFault::NotAnInstance)
        }
        ViewStep::Copy { atom } => copy(alloc, decls, modes, state, atom),
        ViewStep::Unfold {
            name,
            variety,
            fresh,
        } => unfold(alloc, decls, modes, state, *name, *variety, *fresh),
        ViewStep::Fold { atom } => fold(alloc, decls, modes, state, atom),
        ViewStep::Rename { atom, to } => rename(alloc, decls, modes, state, atom, *to),
        ViewStep::Equal { left, right } => equate(state, *left, *right),
        ViewStep::Dynamic { name } => make_dynamic(decls, modes, state, *name),
        ViewStep::Clause { atom, adopts } => {
            set_clause(alloc, decls, modes, state, atom, *adopts)
        }
        ViewStep::Unknown { name } => {
            state.add(Atom::Has {
                name: *name,
                ty: Ty::Unknown,
            })?;
            Ok(())
        }
        ViewStep::Meet { left, right } => meet(alloc, decls, state, left, right),
        ViewStep::InField { atom, field, to } => {
            set_field(alloc, decls, modes, state, atom, *field, *to)
        }
        ViewStep::InLock { atom, spot, to } => set_spot(alloc, state, atom, *spot, *to),
    }
}
