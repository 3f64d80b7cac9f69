//! How the branches of a command begin.
//!
//! Where a name is looked for under which the block is held, the script has to bring the permission under the name that the
//! command uses; each branch then begins with bringing it back.
ghost use Rattle.std.specs.Prelude.{◌≡◌, ℕ, Some, slice_get, IfOk, List};
ghost use Rattle.mz_tree.specs.Plain.{Atom as PlainAtom, Has_atom, Named_type};
ghost use Rattle.mz_decl.specs.View.{plain_decls};
ghost use Rattle.mz_modes.specs.Modes.{AreModes};
ghost use Rattle.mz_elab.specs.Scoping.{IsCon};
ghost use Rattle.mz_elab.specs.Walking.{OpensCon, PutsIn};

use crate::blocks::open_in;
use crate::fresh::fresh_names;
use mz_decl::Decls;
use mz_index::Indexed;
use mz_modes::Modes;
use mz_tree::Memory;
use std::alloc::Global;

// opens the permission at this place, which has the name at the data type, at this constructor, with the next fresh names
// for its fields; gives the one after them
pub(crate) fn open_con(
    alloc: Global,
    decls: &Decls,
    modes: &Modes,
    next: u32,
    state: &mut Indexed,
    place: usize,
    name: u32,
    number: u32,
    con: u32,
) -> Result<u32, Memory>
    requires modes { AreModes (plain_decls decls.now) modes.now }
    requires held { slice_get state.old place ≡ Some (Has_atom name (Named_type number)) }
    requires con { IsCon (plain_decls decls.now) con }
    ensures { (put : List (PlainAtom ℕ) → List (PlainAtom ℕ)) → PutsIn (plain_decls decls.now) state.old place number put → IfOk result (λ it. OpensCon (plain_decls decls.now) name number con next put state.new it) }
{
    match decls.con_at(con) {
        None => Err(Memory),
        Some(made) => {
            let fresh = fresh_names(alloc, next, made.fields.len())?;
            open_in(
                alloc,
                decls,
                modes,
                state,
                place,
                name,
                number,
                con,
                &fresh.names,
            )?;
            Ok(fresh.next)
        }
    }
}
