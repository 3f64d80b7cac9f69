//! The end of a branch or of a function.
ghost use Rattle.mz_tree.specs.View.{plain_atoms};
ghost use Rattle.mz_decl.specs.Declarations.{Decls as PlainDecls};
ghost use Rattle.mz_perm.specs.Using.{UsesUpAllBy};
ghost use Rattle.mz_modes.specs.Affine.{AffineAtom};
ghost use Rattle.mz_modes.specs.Modes.{AreModes};
ghost use Rattle.mz_modes.specs.Answers.{Answers};

use mz_modes::{Modes, RuleFault, use_up_all};
use mz_perm::State;
use mz_tree::Atoms;
use std::alloc::Global;

/// Uses up what the end of a branch or of a function owes, in order: one copy of each affine permission is taken out, and
/// each duplicable one has to be held. `NoInstance` comes just where they can't all be used up. After either fault the
/// state is as it was.
pub fn end_rule(
    alloc: Global,
    modes: &Modes,
    state: &mut State,
    wanted: &Atoms,
) -> Result<(), RuleFault>
    ensures { (D : PlainDecls) → AreModes D modes.now → Answers (λ which. UsesUpAllBy which (AffineAtom D) (plain_atoms wanted.now) state.old) state.old state.new result }
{
    use_up_all(alloc, modes, state, wanted)
}
