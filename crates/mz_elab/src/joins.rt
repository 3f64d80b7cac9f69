//! The branches of a command join: the state behind it, and the item that is written for it.
ghost use Rattle.std.specs.Prelude.{reverse};
ghost use Rattle.mz_tree.specs.View.{plain_atoms};
ghost use Rattle.mz_decl.specs.View.{plain_decls};
ghost use Rattle.mz_modes.specs.Modes.{AreModes};
ghost use Rattle.mz_elab.specs.Joining.{plain_ends};
ghost use Rattle.mz_elab.specs.Walking.{JoinsOr};

use crate::ends::End;
use crate::fault::ElabFault;
use crate::joining::join_ends;
use mz_decl::Decls;
use mz_deriv::{Item, Script, ScriptCase, ScriptCases, state_of};
use mz_index::Indexed;
use mz_modes::Modes;
use mz_tree::{Atom, Atoms, Memory};
use sqlite_items::Items;
use std::alloc::Global;

// the branches join, of a command that binds the name `to` and stands at the state `before`; `uses` is what it used
pub(crate) fn join_in(
    alloc: Global,
    decls: &Decls,
    modes: &Modes,
    bound: &[u32],
    next: u32,
    to: u32,
    before: &Indexed,
    giving: &[Atom],
    ends: Vec<End>,
    uses: Option<Atom>,
    state: &mut Indexed,
    items: &mut Items<Item>,
) -> Result<(), ElabFault>
    requires { AreModes (plain_decls decls.now) modes.now }
    ensures { JoinsOr (plain_decls decls.now) (reverse bound.now) before.now to (plain_atoms giving.now) (plain_ends ends.items) state.new result }
{
    let mut left = ends;
    let join = join_ends(
        alloc,
        decls,
        modes,
        bound,
        next,
        to,
        before,
        giving,
        left.as_mut_slice(),
    )?;
    *state = Indexed::from_state(alloc, state_of(alloc, join.as_slice())?)?;
    write_join(alloc, left, uses, join, items)?;
    Ok(())
}

// writes the item of the command, with a case for each branch
fn write_join(
    alloc: Global,
    ends: Vec<End>,
    uses: Option<Atom>,
    join: Atoms,
    items: &mut Items<Item>,
) -> Result<(), Memory> {
    let cases = in_order(alloc, turned(alloc, ends)?)?;
    items.push(Item::Do { uses, cases, join })?;
    Ok(())
}

// the cases of the branches, the last first
fn turned(alloc: Global, ends: Vec<End>) -> Result<ScriptCases, Memory> {
    let mut left = ends;
    let mut cases = Items::new(alloc);
    while let Some(end) = left.pop() {
        cases.push(ScriptCase {
            fresh: end.opened,
            body: Script { items: end.items },
        })?;
    }
    Ok(cases)
}

// the cases turned round
fn in_order(alloc: Global, turned: ScriptCases) -> Result<ScriptCases, Memory> {
    let mut left = turned;
    let mut cases = Items::new(alloc);
    while let Some(case) = left.pop() {
        cases.push(case)?;
    }
    Ok(cases)
}
