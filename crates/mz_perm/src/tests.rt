//! A state after each call, and what each call answers.
use crate::*;
use mz_tree::*;
use sqlite_items::Items;
use std::alloc::Global;

fn int(name: u32) -> Atom {
    Atom::Has { name, ty: Ty::Int }
}

fn equal(left: u32, right: u32) -> Atom {
    Atom::Same { left, right }
}

fn list<T: Drop>(alloc: Global, first: T, second: T) -> Result<Items<T>, Memory> {
    let mut items = Items::new(alloc);
    items.push(first)?;
    items.push(second)?;
    Ok(items)
}

// `name` is a lock that guards `guarded @ int` and that 9 is 10
fn lock(alloc: Global, name: u32, guarded: u32) -> Result<Atom, Memory> {
    let atoms = list(alloc, int(guarded), equal(9, 10))?;
    Ok(Atom::Has {
        name,
        ty: Ty::Lock(atoms),
    })
}

// 1 @ int, 2 = 1, 1 @ int, 2 = 3, and 4 is a lock over 5
fn state(alloc: Global) -> Result<State, Memory> {
    let mut state = State::new(alloc);
    state.add(int(1))?;
    state.add(equal(2, 1))?;
    state.add(int(1))?;
    state.add(equal(2, 3))?;
    state.add(lock(alloc, 4, 5)?)?;
    Ok(state)
}

// whether the permissions that are held here are those
fn holds(state: &State, atoms: &[Atom]) -> bool {
    let held = state.atoms();
    if held.len() != atoms.len() {
        return false;
    }
    for i in 0..held.len() {
        if !held[i].same(&atoms[i]) {
            return false;
        }
    }
    true
}

// one of two copies goes, the first; the other stays, and then goes too
fn removing(alloc: Global) -> Result<bool, Memory> {
    let mut state = state(alloc)?;
    let whole = state.copy(alloc)?;
    let once = state.remove(&int(1));
    let mut left = State::new(alloc);
    left.add(equal(2, 1))?;
    left.add(int(1))?;
    left.add(equal(2, 3))?;
    left.add(lock(alloc, 4, 5)?)?;
    let first = holds(&state, left.atoms()) && state.has(&int(1));
    let twice = state.remove(&int(1)) && !state.has(&int(1));
    let never = state.remove(&int(1));
    Ok(once && first && twice && !never && whole.has(&int(1)) && whole.atoms().len() == 5)
}

// an equal permission is held, and not one that differs in its type or in what a lock guards
fn having(alloc: Global) -> Result<bool, Memory> {
    let state = state(alloc)?;
    let held = lock(alloc, 4, 5)?;
    let other = lock(alloc, 4, 6)?;
    let unknown = Atom::Has {
        name: 1,
        ty: Ty::Unknown,
    };
    Ok(state.has(&held) && !state.has(&other) && !state.has(&unknown) && !state.has(&equal(1, 2)))
}

// names of atoms, of equations and inside a lock's type occur
fn occurring(alloc: Global) -> Result<bool, Memory> {
    let state = state(alloc)?;
    Ok(
        state.occurs(1)
            && state.occurs(3)
            && state.occurs(5)
            && state.occurs(10)
            && !state.occurs(6),
    )
}

// two names are joined through a third, whichever side it stands on; a lock's equations join none
fn joining(alloc: Global) -> Result<bool, Memory> {
    let state = state(alloc)?;
    let third = state.same_name(alloc, 1, 3)?;
    let back = state.same_name(alloc, 3, 1)?;
    let itself = state.same_name(alloc, 7, 7)?;
    let apart = state.same_name(alloc, 1, 4)?;
    let guarded = state.same_name(alloc, 9, 10)?;
    Ok(third && back && itself && !apart && !guarded)
}

// `name` is a block with these fields, which adopts data type 1
fn block(name: u32, fields: Names) -> Atom {
    Atom::Has {
        name,
        ty: Ty::Block {
            con: 0,
            fields,
            adopts: Some(1),
        },
    }
}

// `name` is a lock that guards an equation and a block
fn guard(alloc: Global, name: u32, left: u32, right: u32) -> Result<Atom, Memory> {
    let fields = list(alloc, right, left)?;
    let atoms = list(alloc, equal(left, right), block(left, fields))?;
    Ok(Atom::Has {
        name,
        ty: Ty::Lock(atoms),
    })
}

// each name becomes the one at its place, inside types too, and other numbers stay
fn putting(alloc: Global) -> Result<bool, Memory> {
    let to = list(alloc, 300, 301)?;
    let renamed = substitute(alloc, &guard(alloc, 1, 0, 1)?, &to)?;
    Ok(renamed.same(&guard(alloc, 301, 300, 301)?))
}

fn passed(row: Result<bool, Memory>) -> bool {
    match row {
        Ok(passed) => passed,
        Err(_) => false,
    }
}

#[test]
fn states_after_each_call(rt: HostRuntime) {
    let alloc = rt.alloc();
    assert!(rt; passed(removing(alloc)), "removing");
    assert!(rt; passed(having(alloc)), "having");
    assert!(rt; passed(occurring(alloc)), "occurring");
    assert!(rt; passed(joining(alloc)), "joining");
    assert!(rt; passed(putting(alloc)), "putting");
}
