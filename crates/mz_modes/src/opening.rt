//! Opening a data type as a block of one of its constructors.
ghost use Rattle.std.specs.Prelude.{◌≡◌, ◌+◌, ◌++◌, ◌≤◌, ◌^◌, IsTrue, IfOk, map};
ghost use Rattle.mz_tree.specs.View.{plain_field};
ghost use Rattle.mz_tree.specs.Saying.{Says};
ghost use Rattle.mz_decl.specs.Contents.{contents, names_from};
ghost use Rattle.mz_decl.specs.View.{plain_decls};
ghost use Rattle.mz_modes.specs.Modes.{AreModes};
ghost use Rattle.mz_modes.specs.Opening.{AreFresh, Opens};
ghost use Rattle.mz_modes.specs.Answers.{Answers, Gives};

use crate::{Modes, RuleFault, use_up};
use mz_decl::Decls;
use mz_perm::{State, substitute};
use mz_tree::{Alike, Atom, Field, Memory, Names, Ty};
use sqlite_items::Items;
use std::alloc::Global;

// the first name that isn't a core name, and how many numbers of 32 bits there are
const FIRST: u32 = 256;

const NUMBERS: usize = 4_294_967_296;

/// Opens `name` at this data type as a block of constructor `con`, with the names from `fresh` on for its fields: what an
/// unfolding does for the only constructor of a data type, and a branch for its own. Where there is no instance, or
/// memory is wanting, the state stays as it is.
pub fn open_at(
    alloc: Global,
    decls: &Decls,
    modes: &Modes,
    state: &mut State,
    name: u32,
    variety: u32,
    con: u32,
    fresh: u32,
) -> Result<(), RuleFault>
    requires { AreModes (plain_decls decls.now) modes.now }
    ensures { Answers (λ which. Opens which (plain_decls decls.now) state.old name variety con fresh) state.old state.new result }
{
    *state = opened(alloc, decls, modes, state, name, variety, con, fresh)?;
    Ok(())
}

// the state in which the name is opened
fn opened(
    alloc: Global,
    decls: &Decls,
    modes: &Modes,
    state: &State,
    name: u32,
    variety: u32,
    con: u32,
    fresh: u32,
) -> Result<State, RuleFault>
    requires { AreModes (plain_decls decls.now) modes.now }
    ensures { Gives (λ which. Opens which (plain_decls decls.now) state.now name variety con fresh) result }
{
    let made = match decls.con_at(con) {
        Some(made) => made,
        None => return Err(RuleFault::NoInstance),
    };
    let fields = made.fields.as_slice();
    let count = fields.len();
    if !are_fresh(state, fresh, count) {
        return Err(RuleFault::NoInstance);
    }
    let names = names_from(alloc, fresh, count)?;
    let block = Ty::Block {
        con,
        fields: names.copy(alloc)?,
        adopts: decls.clause_at(variety),
    };
    let whole = Atom::Has {
        name,
        ty: Ty::Named(variety),
    };
    let mut next = state.copy(alloc)?;
    if !use_up(modes, &mut next, &whole) {
        return Err(RuleFault::NoInstance);
    }
    next.add(Atom::Has { name, ty: block })?;
    add_contents(alloc, &mut next, fields, &names)?;
    Ok(next)
}

// whether these names are fresh
fn are_fresh(state: &State, from: u32, count: usize) -> bool
    ensures fresh { Says result (AreFresh state.now from count) }
    ensures within { IsTrue result → from + count ≤ 2 ^ 32 }
{
    if count == 0 {
        return true;
    }
    if from < FIRST || NUMBERS - (from as usize) < count {
        return false;
    }
    are_unused(state, from, count)
}

// whether these names, which are no core names, stand nowhere in the state
fn are_unused(state: &State, from: u32, count: usize) -> bool
    requires no_core { 256 ≤ from }
    requires within { from + count ≤ 2 ^ 32 }
    ensures { Says result (AreFresh state.now from count) }
{
    for i in 0..count {
        if state.occurs(from + i as u32) {
            return false;
        }
    }
    true
}

// so many names from this on
fn names_from(alloc: Global, from: u32, count: usize) -> Result<Names, Memory>
    requires { from + count ≤ 2 ^ 32 }
    ensures { IfOk result (λ it. it ≡ names_from from count) }
{
    let mut names = Items::new(alloc);
    for i in 0..count {
        names.push(from + i as u32)?;
    }
    Ok(names)
}

// adds the content of each field, with these names for the fields; where memory is wanting some are added
fn add_contents(
    alloc: Global,
    state: &mut State,
    fields: &[Field],
    names: &Names,
) -> Result<(), Memory>
    ensures { IfOk result (λ _. state.new ≡ state.old ++ contents names.now (map plain_field fields.now)) }
{
    for i in 0..fields.len() {
        state.add(substitute(alloc, &fields[i].content, names)?)?;
    }
    Ok(())
}
