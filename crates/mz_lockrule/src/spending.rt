//! Using several permissions up for another one.
ghost use Rattle.std.specs.Prelude.{ℕ, List};
ghost use Rattle.mz_tree.specs.Plain.{Atom as PlainAtom};
ghost use Rattle.mz_tree.specs.View.{plain_atom, plain_atoms};
ghost use Rattle.mz_decl.specs.Declarations.{Decls as PlainDecls};
ghost use Rattle.mz_perm.specs.Lists.{Which};
ghost use Rattle.mz_modes.specs.Modes.{AreModes};
ghost use Rattle.mz_modes.specs.Answers.{Answers};
ghost use Rattle.mz_lockrule.specs.Spending.{Spends};

use mz_modes::{Modes, RuleFault, use_up_all};
use mz_perm::State;
use mz_tree::{Atom, Atoms};
use std::alloc::Global;

/// Uses up what is wanted, one permission after the other, and adds another one at the end. Where one can't be used up,
/// or memory is wanting, the state stays as it is.
pub fn spend(
    alloc: Global,
    modes: &Modes,
    state: &mut State,
    wanted: &Atoms,
    added: Atom,
) -> Result<(), RuleFault>
    ensures { (D : PlainDecls) → AreModes D modes.now → Answers (λ (which : Which) (S : List (PlainAtom ℕ)). Spends which D state.old (plain_atoms wanted.now) (plain_atom added) S) state.old state.new result }
{
    let mut next = state.copy(alloc)?;
    if let Err(fault) = use_up_all(alloc, modes, &mut next, wanted) {
        return Err(fault);
    }
    next.add(added)?;
    *state = next;
    Ok(())
}
