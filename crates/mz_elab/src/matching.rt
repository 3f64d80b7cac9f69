//! What a match needs before its cases: the permission that it uses, and where its branches begin.
ghost use Rattle.std.specs.Prelude.{◌≡◌, ◌<◌, ℕ, List, Option, Some, length, slice_get};
ghost use Rattle.mz_tree.specs.Plain.{Block_type, Has_atom};
ghost use Rattle.mz_tree.specs.Code.{Case as PlainCase, con_of};
ghost use Rattle.mz_tree.specs.View.{plain_atom, plain_cases};
ghost use Rattle.mz_decl.specs.View.{plain_decls};
ghost use Rattle.mz_modes.specs.Modes.{AreModes};
ghost use Rattle.mz_index.specs.Finding.{IsFirst};
ghost use Rattle.mz_elab.specs.Walking.{HasCase};

use crate::fresh::fresh_names;
use crate::goals::subject;
use crate::lending::{lend, lend_back, with_name};
use mz_decl::Decls;
use mz_deriv::Item;
use mz_index::Indexed;
use mz_modes::Modes;
use mz_tree::{Atom, Case, Memory, Ty};
use sqlite_items::Items;
use std::alloc::Global;

// the constructor of the block at this place
pub(crate) fn con_at(state: &Indexed, place: usize) -> u32
    requires { place < length state.now }
    ensures { (x con : ℕ) (ys : List ℕ) (clause : Option ℕ) → slice_get state.now place ≡ Some (Has_atom x (Block_type con ys clause)) → result ≡ con }
{
    match state.at(place) {
        Atom::Has { ty, .. } => match ty {
            Ty::Block { con, .. } => *con,
            _ => 0,
        },
        Atom::Same { .. } => 0,
    }
}

// the place of the first case of the constructor
pub(crate) fn case_of(cases: &[Case], con: u32) -> usize
    requires { HasCase con (plain_cases cases.now) }
    ensures within { result < length cases.now }
    ensures first { (c : PlainCase) → slice_get (plain_cases cases.now) result ≡ Some c → IsFirst (λ (k : PlainCase). con_of k ≡ con) (plain_cases cases.now) result c }
{
    for i in 0..cases.len() {
        if cases[i].con == con {
            return i;
        }
    }
    unreachable!()
}

// brings the permission at this place under the name that the command uses, and gives it as it is then
pub(crate) fn use_at(
    alloc: Global,
    decls: &Decls,
    modes: &Modes,
    bound: &[u32],
    next: u32,
    state: &Indexed,
    place: usize,
    name: u32,
    items: &mut Items<Item>,
) -> Result<Atom, Memory>
    requires modes { AreModes (plain_decls decls.now) modes.now }
    requires within { place < length state.now }
{
    let found = state.at(place);
    lend(alloc, decls, modes, bound, next, state, found, name, items)?;
    with_name(alloc, found, name)
}

// how the script of a branch begins: the permission that was used gets its own name back
pub(crate) fn begin_known(alloc: Global, used: &Atom, own: u32) -> Result<Items<Item>, Memory> {
    let mut items = Items::new(alloc);
    lend_back(alloc, used, own, &mut items)?;
    Ok(items)
}

// the same where the block was opened at the constructor, with names from `next` on for its fields
pub(crate) fn begin_opened(
    alloc: Global,
    decls: &Decls,
    used: u32,
    own: u32,
    number: u32,
    con: u32,
    next: u32,
) -> Result<Items<Item>, Memory> {
    match decls.con_at(con) {
        None => Ok(Items::new(alloc)),
        Some(made) => {
            let opened = Atom::Has {
                name: used,
                ty: Ty::Block {
                    con,
                    fields: fresh_names(alloc, next, made.fields.len())?.names,
                    adopts: decls.clause_at(number),
                },
            };
            begin_known(alloc, &opened, own)
        }
    }
}
