//! Permissions from the entries of tables, and the program that they speak of.
use mz_perm::State;
use mz_tree::{
    Atom, Con, Cons, Field, Fields, Memory, Names, Place, Program, Ty, Varieties, Variety,
};
use sqlite_items::Items;
use std::alloc::Global;

/// A permission: of the name that stands first.
#[derive(Clone, Copy)]
pub(crate) enum Held {
    Int(u32),
    Unknown(u32),
    Dynamic(u32),
    Named(u32, u32),
    Same(u32, u32),
    /// A block of a constructor without fields.
    Empty(u32, u32),
    /// A block of a constructor with one field, and what it adopts.
    One(u32, u32, u32, Option<u32>),
    /// A block of a constructor with two fields.
    Two(u32, u32, u32, u32),
    /// A lock that guards an integer, which this name holds.
    Lock(u32, u32),
}

const PLACE: Place = Place { line: 1, col: 1 };

fn one<T: Drop>(alloc: Global, item: T) -> Result<Items<T>, Memory> {
    let mut items = Items::new(alloc);
    items.push(item)?;
    Ok(items)
}

fn two<T: Drop>(alloc: Global, first: T, second: T) -> Result<Items<T>, Memory> {
    let mut items = Items::new(alloc);
    items.push(first)?;
    items.push(second)?;
    Ok(items)
}

fn has(name: u32, ty: Ty) -> Atom {
    Atom::Has { name, ty }
}

fn block(con: u32, fields: Names, adopts: Option<u32>) -> Ty {
    Ty::Block {
        con,
        fields,
        adopts,
    }
}

pub(crate) fn atom(alloc: Global, held: Held) -> Result<Atom, Memory> {
    Ok(match held {
        Held::Int(name) => has(name, Ty::Int),
        Held::Unknown(name) => has(name, Ty::Unknown),
        Held::Dynamic(name) => has(name, Ty::Dynamic),
        Held::Named(name, variety) => has(name, Ty::Named(variety)),
        Held::Same(left, right) => Atom::Same { left, right },
        Held::Empty(name, con) => has(name, block(con, Items::new(alloc), None)),
        Held::One(name, con, field, adopts) => has(name, block(con, one(alloc, field)?, adopts)),
        Held::Two(name, con, first, second) => {
            has(name, block(con, two(alloc, first, second)?, None))
        }
        Held::Lock(name, guarded) => has(name, Ty::Lock(one(alloc, has(guarded, Ty::Int))?)),
    })
}

/// The state that holds these, in this order.
pub(crate) fn state_of(alloc: Global, all: &[Held]) -> Result<State, Memory> {
    let mut state = State::new(alloc);
    for k in 0..all.len() {
        state.add(atom(alloc, all[k])?)?;
    }
    Ok(state)
}

fn variety(alloc: Global, mutable: bool, adopts: Option<u32>, cons: Names) -> Variety {
    Variety {
        name: Items::new(alloc),
        place: PLACE,
        mutable,
        adopts,
        cons,
    }
}

fn field(alloc: Global, content: Atom) -> Field {
    Field {
        name: Items::new(alloc),
        content,
    }
}

fn con(alloc: Global, variety: u32, fields: Fields) -> Con {
    Con {
        name: Items::new(alloc),
        variety,
        fields,
    }
}

// 0 is a mutable cell, 1 an immutable list, 2 a mutable pool that adopts cells, 3 an immutable box
fn varieties(alloc: Global) -> Result<Varieties, Memory> {
    let mut all = two(
        alloc,
        variety(alloc, true, None, one(alloc, 0)?),
        variety(alloc, false, None, two(alloc, 1, 2)?),
    )?;
    all.push(variety(alloc, true, Some(0), one(alloc, 3)?))?;
    all.push(variety(alloc, false, None, two(alloc, 4, 5)?))?;
    Ok(all)
}

// 0 is a cell's with an integer, 1 the empty list's, 2 has an integer and a list, 3 is a pool's with an integer, 4 a box's
// with a cell, and 5 a box's with a cell and an integer
fn cons(alloc: Global) -> Result<Cons, Memory> {
    let mut all = two(
        alloc,
        con(alloc, 0, one(alloc, field(alloc, has(0, Ty::Int)))?),
        con(alloc, 1, Items::new(alloc)),
    )?;
    let head = field(alloc, has(0, Ty::Int));
    let tail = field(alloc, has(1, Ty::Named(1)));
    all.push(con(alloc, 1, two(alloc, head, tail)?))?;
    all.push(con(alloc, 2, one(alloc, field(alloc, has(0, Ty::Int)))?))?;
    all.push(con(alloc, 3, one(alloc, field(alloc, has(0, Ty::Named(0))))?))?;
    let cell = field(alloc, has(0, Ty::Named(0)));
    let number = field(alloc, has(1, Ty::Int));
    all.push(con(alloc, 3, two(alloc, cell, number)?))?;
    Ok(all)
}

/// The program whose data types and constructors the tables name.
pub(crate) fn program(alloc: Global) -> Result<Program, Memory> {
    Ok(Program {
        varieties: varieties(alloc)?,
        cons: cons(alloc)?,
        sigs: Items::new(alloc),
        funs: Items::new(alloc),
        clauses: Items::new(alloc),
    })
}
