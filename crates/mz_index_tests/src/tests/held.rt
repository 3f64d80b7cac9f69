//! Permissions and questions from the entries of tables.
use mz_index::{Indexed, Test};
use mz_perm::State;
use mz_tree::{Atom, Memory, Names, Ty};
use sqlite_items::Items;
use std::alloc::Global;

/// A permission: of the name that stands first.
#[derive(Clone, Copy)]
pub(crate) enum Held {
    Int(u32),
    Named(u32, u32),
    Function(u32, u32),
    /// A block of a constructor, with one field.
    Block(u32, u32, u32),
    /// A lock that guards a number, which this name holds.
    Lock(u32, u32),
    Same(u32, u32),
}

/// What a question asks of a type.
#[derive(Clone, Copy)]
pub(crate) enum Asked {
    /// It is alike to that of this permission.
    Alike(Held),
    Block,
    BlockOf(u32),
    OfVariety(u32),
    AnyFunction,
    AnyLock,
    Any,
}

fn one_name(alloc: Global, name: u32) -> Result<Names, Memory> {
    let mut names = Items::new(alloc);
    names.push(name)?;
    Ok(names)
}

fn lock(alloc: Global, guarded: u32) -> Result<Ty, Memory> {
    let mut atoms = Items::new(alloc);
    atoms.push(Atom::Has {
        name: guarded,
        ty: Ty::Int,
    })?;
    Ok(Ty::Lock(atoms))
}

// the type that is held; that of an equation is a number's
fn ty(alloc: Global, held: Held) -> Result<Ty, Memory> {
    match held {
        Held::Int(_) => Ok(Ty::Int),
        Held::Named(_, variety) => Ok(Ty::Named(variety)),
        Held::Function(_, sig) => Ok(Ty::Function(sig)),
        Held::Block(_, con, field) => Ok(Ty::Block {
            con,
            fields: one_name(alloc, field)?,
            adopts: None,
        }),
        Held::Lock(_, guarded) => lock(alloc, guarded),
        Held::Same(_, _) => Ok(Ty::Int),
    }
}

pub(crate) fn atom(alloc: Global, held: Held) -> Result<Atom, Memory> {
    match held {
        Held::Same(left, right) => Ok(Atom::Same { left, right }),
        Held::Int(name) => Ok(Atom::Has { name, ty: Ty::Int }),
        Held::Named(name, _)
        | Held::Function(name, _)
        | Held::Block(name, _, _)
        | Held::Lock(name, _) => Ok(Atom::Has {
            name,
            ty: ty(alloc, held)?,
        }),
    }
}

pub(crate) fn test(alloc: Global, asked: Asked) -> Result<Test, Memory> {
    match asked {
        Asked::Alike(held) => Ok(Test::Alike(ty(alloc, held)?)),
        Asked::Block => Ok(Test::Block),
        Asked::BlockOf(con) => Ok(Test::BlockOf(con)),
        Asked::OfVariety(variety) => Ok(Test::OfVariety(variety)),
        Asked::AnyFunction => Ok(Test::AnyFunction),
        Asked::AnyLock => Ok(Test::AnyLock),
        Asked::Any => Ok(Test::Any),
    }
}

/// The state that holds these, in this order.
pub(crate) fn indexed(alloc: Global, all: &[Held]) -> Result<Indexed, Memory> {
    let mut state = State::new(alloc);
    for k in 0..all.len() {
        state.add(atom(alloc, all[k])?)?;
    }
    Indexed::from_state(alloc, state)
}
