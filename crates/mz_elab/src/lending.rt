//! A permission of a name's class under that very name, as the rules of commands want it.
//!
//! A rule speaks of the name that the command uses, and the guided rules find a permission under any name of its class. So in
//! the script the permission gets the name before the command, and its own name back behind it. The equations that this takes
//! stay in the script's state: they are duplicable.
ghost use Rattle.mz_decl.specs.View.{plain_decls};
ghost use Rattle.mz_modes.specs.Modes.{AreModes};

use crate::doing::write_do;
use crate::goals::{meet_goal, subject};
use mz_decl::Decls;
use mz_deriv::Item;
use mz_index::Indexed;
use mz_modes::Modes;
use mz_tree::{Alike, Atom, Memory};
use mz_view::ViewStep;
use sqlite_items::Items;
use std::alloc::Global;

// writes the steps by which the permission gets the name; none where it has it
pub(crate) fn lend(
    alloc: Global,
    decls: &Decls,
    modes: &Modes,
    bound: &[u32],
    next: u32,
    state: &Indexed,
    atom: &Atom,
    to: u32,
    items: &mut Items<Item>,
) -> Result<(), Memory>
    requires { AreModes (plain_decls decls.now) modes.now }
{
    let from = subject(atom);
    if from == to {
        return Ok(());
    }
    let mut left = state.copy(alloc)?;
    let out = Atom::Same {
        left: from,
        right: to,
    };
    let back = Atom::Same {
        left: to,
        right: from,
    };
    if meet_goal(alloc, decls, modes, bound, next, &mut left, &out, items)?
        && meet_goal(alloc, decls, modes, bound, next, &mut left, &back, items)?
    {
        items.push(Item::Step(ViewStep::Rename {
            atom: atom.copy(alloc)?,
            to,
        }))?;
    }
    Ok(())
}

// writes the step by which a permission that was lent gets its own name back; `atom` is as it stands then
pub(crate) fn lend_back(
    alloc: Global,
    atom: &Atom,
    back: u32,
    items: &mut Items<Item>,
) -> Result<(), Memory> {
    if subject(atom) == back {
        return Ok(());
    }
    items.push(Item::Step(ViewStep::Rename {
        atom: atom.copy(alloc)?,
        to: back,
    }))?;
    Ok(())
}

// the permission under this name
pub(crate) fn with_name(alloc: Global, atom: &Atom, name: u32) -> Result<Atom, Memory> {
    match atom {
        Atom::Has { name: _, ty } => Ok(Atom::Has {
            name,
            ty: ty.copy(alloc)?,
        }),
        Atom::Same { .. } => atom.copy(alloc),
    }
}

// writes a command that uses the permission under this name and leaves it as it is
pub(crate) fn do_lent(
    alloc: Global,
    decls: &Decls,
    modes: &Modes,
    bound: &[u32],
    next: u32,
    state: &Indexed,
    atom: &Atom,
    to: u32,
    items: &mut Items<Item>,
) -> Result<(), Memory>
    requires { AreModes (plain_decls decls.now) modes.now }
{
    lend(alloc, decls, modes, bound, next, state, atom, to, items)?;
    let lent = with_name(alloc, atom, to)?;
    write_do(alloc, Some(with_name(alloc, atom, to)?), items)?;
    lend_back(alloc, &lent, subject(atom), items)
}
