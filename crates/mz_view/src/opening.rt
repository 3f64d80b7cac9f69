//! The rule unfold.
ghost use Rattle.mz_decl.specs.View.{plain_decls};
ghost use Rattle.mz_modes.specs.Modes.{AreModes};
ghost use Rattle.mz_view.specs.Rules.{Unfolds};
ghost use Rattle.mz_view.specs.Answers.{Becomes};

use crate::ViewFault;
use mz_decl::Decls;
use mz_modes::{Modes, RuleFault, open_at};
use mz_perm::State;
use std::alloc::Global;

// opens the name at the only constructor of the data type
pub(crate) fn unfold(
    alloc: Global,
    decls: &Decls,
    modes: &Modes,
    state: &mut State,
    name: u32,
    variety: u32,
    fresh: u32,
) -> Result<(), ViewFault>
    requires { AreModes (plain_decls decls.now) modes.now }
    ensures { Becomes (λ which. Unfolds which (plain_decls decls.now) state.old name variety fresh) state.old state.new result }
{
    match decls.only_at(variety) {
        None => Err(ViewFault::NotAnInstance),
        Some(con) => match open_at(alloc, decls, modes, state, name, variety, con, fresh) {
            Ok(()) => Ok(()),
            Err(RuleFault::NoInstance) => Err(ViewFault::NotAnInstance),
            Err(RuleFault::Memory) => Err(ViewFault::Memory),
        },
    }
}
