//! Permissions and view steps.
use crate::tests::declared::CELL;
use crate::tests::form::{Held, Step};
use mz_tree::{Atom, Atoms, Memory, Names, Ty};
use mz_view::ViewStep;
use sqlite_items::Items;
use std::alloc::Global;

fn one<T: Drop>(alloc: Global, item: T) -> Result<Items<T>, Memory> {
    let mut items = Items::new(alloc);
    items.push(item)?;
    Ok(items)
}

fn two(alloc: Global, first: u32, second: u32) -> Result<Names, Memory> {
    let mut names = Items::new(alloc);
    names.push(first)?;
    names.push(second)?;
    Ok(names)
}

fn has(name: u32, ty: Ty) -> Atom {
    Atom::Has { name, ty }
}

fn block(name: u32, con: u32, fields: Names, adopts: Option<u32>) -> Atom {
    has(
        name,
        Ty::Block {
            con,
            fields,
            adopts,
        },
    )
}

// a cell, as a lock guards it
fn guarded(alloc: Global, name: u32) -> Result<Atoms, Memory> {
    one(alloc, has(name, Ty::Named(CELL)))
}

pub(crate) fn atom(alloc: Global, held: Held) -> Result<Atom, Memory> {
    Ok(match held {
        Held::Int(name) => has(name, Ty::Int),
        Held::Unknown(name) => has(name, Ty::Unknown),
        Held::Dynamic(name) => has(name, Ty::Dynamic),
        Held::Locked(name) => has(name, Ty::Locked),
        Held::Named(name, data) => has(name, Ty::Named(data)),
        Held::Function(name, sig) => has(name, Ty::Function(sig)),
        Held::Empty(name, con) => block(name, con, Items::new(alloc), None),
        Held::Block(name, con, field, adopts) => block(name, con, one(alloc, field)?, adopts),
        Held::Pair(name, con, first, second) => {
            block(name, con, two(alloc, first, second)?, None)
        }
        Held::Lock(name, cell) => has(name, Ty::Lock(guarded(alloc, cell)?)),
        Held::Equal(left, right) => Atom::Same { left, right },
    })
}

pub(crate) fn step(alloc: Global, step: Step) -> Result<ViewStep, Memory> {
    Ok(match step {
        Step::Drop(held) => ViewStep::Drop {
            atom: atom(alloc, held)?,
        },
        Step::Copy(held) => ViewStep::Copy {
            atom: atom(alloc, held)?,
        },
        Step::Unfold(name, variety, fresh) => ViewStep::Unfold {
            name,
            variety,
            fresh,
        },
        Step::Fold(held) => ViewStep::Fold {
            atom: atom(alloc, held)?,
        },
        Step::Rename(held, to) => ViewStep::Rename {
            atom: atom(alloc, held)?,
            to,
        },
        Step::Equal(left, right) => ViewStep::Equal { left, right },
        Step::Dynamic(name) => ViewStep::Dynamic { name },
        Step::Clause(held, adopts) => ViewStep::Clause {
            atom: atom(alloc, held)?,
            adopts,
        },
        Step::Unknown(name) => ViewStep::Unknown { name },
        Step::Meet(left, right) => ViewStep::Meet {
            left: atom(alloc, left)?,
            right: atom(alloc, right)?,
        },
        Step::Field(held, field, to) => ViewStep::InField {
            atom: atom(alloc, held)?,
            field,
            to,
        },
        Step::Spot(held, spot, to) => ViewStep::InLock {
            atom: atom(alloc, held)?,
            spot,
            to,
        },
    })
}
