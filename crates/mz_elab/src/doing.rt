//! Commands without branches that look for nothing: they add a permission, some after goals.
ghost use Rattle.std.specs.Prelude.{◌≡◌, ◌++◌, ◌∷◌, [], IfOk, None, map, option_map};
ghost use Rattle.mz_tree.specs.Plain.{Has_atom, Unknown_type};
ghost use Rattle.mz_tree.specs.View.{plain_atom, plain_atoms};
ghost use Rattle.mz_decl.specs.View.{plain_decls};
ghost use Rattle.mz_modes.specs.Modes.{AreModes};
ghost use Rattle.mz_deriv.specs.View.{plain_item};
ghost use Rattle.mz_elab.specs.Standing.{IsKnown};
ghost use Rattle.mz_elab.specs.Doing.{MeetsThen, does};

use crate::fault::ElabFault;
use crate::goals::meet_goals;
use mz_decl::Decls;
use mz_deriv::Item;
use mz_index::Indexed;
use mz_modes::Modes;
use mz_tree::{Atom, Memory, Place, Ty};
use sqlite_items::Items;
use std::alloc::Global;

// writes the item of a command
pub(crate) fn write_do(
    alloc: Global,
    uses: Option<Atom>,
    items: &mut Items<Item>,
) -> Result<(), Memory>
    ensures { IfOk result (λ _. map plain_item items.new ≡ map plain_item items.old ++ does (option_map plain_atom uses)) }
{
    items.push(Item::Do {
        uses,
        cases: Items::new(alloc),
        join: Items::new(alloc),
    })?;
    Ok(())
}

// a command that adds this permission and asks for none
pub(crate) fn add_plain(
    alloc: Global,
    state: &mut Indexed,
    atom: Atom,
    items: &mut Items<Item>,
) -> Result<(), Memory>
    ensures state { IfOk result (λ _. state.new ≡ state.old ++ plain_atom atom ∷ []) }
    ensures items { IfOk result (λ _. map plain_item items.new ≡ map plain_item items.old ++ does (option_map plain_atom None)) }
{
    state.add(atom)?;
    write_do(alloc, None, items)
}

// the permissions that a command adds whose value is ()
pub(crate) fn add_with_unit(state: &mut Indexed, atom: Atom, to: u32) -> Result<(), Memory>
    ensures { IfOk result (λ _. state.new ≡ state.old ++ plain_atom atom ∷ Has_atom to Unknown_type ∷ []) }
{
    state.add(atom)?;
    state.add(Atom::Has {
        name: to,
        ty: Ty::Unknown,
    })?;
    Ok(())
}

// a command that meets these goals and then adds this permission
pub(crate) fn meet_then_add(
    alloc: Global,
    decls: &Decls,
    modes: &Modes,
    bound: &[u32],
    next: u32,
    state: &mut Indexed,
    goals: &[Atom],
    place: Place,
    atom: Atom,
    items: &mut Items<Item>,
) -> Result<(), ElabFault>
    requires { AreModes (plain_decls decls.now) modes.now }
    ensures { MeetsThen (plain_decls decls.now) (IsKnown bound.now next) state.old (plain_atoms goals.now) place (plain_atom atom) state.new (map plain_item items.old) (map plain_item items.new) result }
{
    meet_goals(alloc, decls, modes, bound, next, state, goals, place, items)?;
    state.add(atom)?;
    write_do(alloc, None, items)?;
    Ok(())
}
