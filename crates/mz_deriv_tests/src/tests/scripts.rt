//! Scripts from the lines of a table.
use crate::tests::atoms::{atom, step};
use crate::tests::form::{Held, Line};
use mz_deriv::{Item, Script, ScriptCase, ScriptCases};
use mz_tree::{Atom, Atoms, Memory};
use sqlite_items::Items;
use std::alloc::Global;
use std::mem;

/// A script that isn't whole yet: its number where it is that of a case, its items, and what was read of a command with branches.
#[derive(Drop)]
pub(crate) struct Part {
    fresh: u32,
    items: Items<Item>,
    uses: Option<Atom>,
    cases: ScriptCases,
    join: Atoms,
}

pub(crate) fn begun(alloc: Global, fresh: u32) -> Part {
    Part {
        fresh,
        items: Items::new(alloc),
        uses: None,
        cases: Items::new(alloc),
        join: Items::new(alloc),
    }
}

/// The script that was read.
pub(crate) fn whole(read: Part) -> Script {
    Script { items: read.items }
}

fn used(alloc: Global, held: Option<Held>) -> Result<Option<Atom>, Memory> {
    match held {
        None => Ok(None),
        Some(held) => Ok(Some(atom(alloc, held)?)),
    }
}

fn plain(alloc: Global, held: Option<Held>) -> Result<Item, Memory> {
    Ok(Item::Do {
        uses: used(alloc, held)?,
        cases: Items::new(alloc),
        join: Items::new(alloc),
    })
}

// a case is one of the command round it
fn leave(outer: &mut Items<Part>, now: &mut Part) -> Result<(), Memory> {
    if let Some(around) = outer.pop() {
        let done = mem::replace(now, around);
        let Part { fresh, items, .. } = done;
        now.cases.push(ScriptCase {
            fresh,
            body: Script { items },
        })?;
    }
    Ok(())
}

// the command with branches is whole
fn join(alloc: Global, now: &mut Part) -> Result<(), Memory> {
    let uses = mem::replace(&mut now.uses, None);
    let cases = mem::replace(&mut now.cases, Items::new(alloc));
    let join = mem::replace(&mut now.join, Items::new(alloc));
    now.items.push(Item::Do { uses, cases, join })?;
    Ok(())
}

/// One more line of the script that is read, inside of the cases that are open.
pub(crate) fn read(
    alloc: Global,
    outer: &mut Items<Part>,
    now: &mut Part,
    line: Line,
) -> Result<(), Memory> {
    match line {
        Line::See(seen) => now.items.push(Item::Step(step(alloc, seen)?))?,
        Line::Do => now.items.push(plain(alloc, None)?)?,
        Line::Uses(held) => now.items.push(plain(alloc, Some(held))?)?,
        Line::Forks(held) => now.uses = used(alloc, held)?,
        Line::Case(fresh) => outer.push(mem::replace(now, begun(alloc, fresh)))?,
        Line::End => leave(outer, now)?,
        Line::Join(held) => now.join.push(atom(alloc, held)?)?,
        Line::Joined => join(alloc, now)?,
        Line::Next | Line::Row(_, _, _, _) => {}
    }
    Ok(())
}
