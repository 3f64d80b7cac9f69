//! What is found in a state, and what its edits leave.
use held::{Asked, Held, atom, indexed, test};
use mz_index::Indexed;
use mz_tree::{Alike, Memory, Names};
use sqlite_items::Items;
use std::alloc::Global;
use std::test::Fail;

mod held;

// names 1, 2 and 3 in a chain, and 4, 5 and 6 in a ring
const STATE: [Held; 14] = [
    Held::Same(1, 2),
    Held::Same(3, 2),
    Held::Same(4, 5),
    Held::Same(5, 6),
    Held::Same(6, 4),
    Held::Int(2),
    Held::Block(3, 0, 7),
    Held::Named(1, 4),
    Held::Function(5, 2),
    Held::Lock(6, 1),
    Held::Block(6, 1, 1),
    Held::Int(9),
    Held::Block(1, 1, 3),
    Held::Int(2),
];

// a name, the place from which it is looked for, what is asked, and the place that is found
const QUESTIONS: [(u32, usize, Asked, Option<usize>); 26] = [
    (1, 0, Asked::Any, Some(5)),
    (1, 5, Asked::Any, Some(5)),
    (1, 6, Asked::Any, Some(6)),
    (1, 14, Asked::Any, None),
    (1, 4_000, Asked::Any, None),
    (9, 0, Asked::Any, Some(11)),
    (10, 0, Asked::Any, None),
    (7, 0, Asked::Any, None),
    (3, 0, Asked::OfVariety(4), Some(7)),
    (3, 0, Asked::OfVariety(5), None),
    (2, 0, Asked::Block, Some(6)),
    (2, 7, Asked::Block, Some(12)),
    (9, 0, Asked::Block, None),
    (2, 0, Asked::BlockOf(1), Some(12)),
    (4, 0, Asked::BlockOf(1), Some(10)),
    (4, 0, Asked::BlockOf(0), None),
    (4, 0, Asked::AnyFunction, Some(8)),
    (1, 0, Asked::AnyFunction, None),
    (5, 0, Asked::AnyLock, Some(9)),
    (1, 0, Asked::AnyLock, None),
    (5, 0, Asked::Alike(Held::Block(0, 1, 2)), Some(10)),
    (5, 0, Asked::Alike(Held::Block(0, 1, 9)), None),
    (5, 0, Asked::Alike(Held::Block(0, 0, 2)), None),
    (6, 0, Asked::Alike(Held::Lock(0, 3)), Some(9)),
    (6, 0, Asked::Alike(Held::Lock(0, 4)), None),
    (3, 6, Asked::Alike(Held::Int(0)), Some(13)),
];

// the first question that is answered otherwise, by its place
fn wrong_question(alloc: Global) -> Result<Option<usize>, Memory> {
    let state = indexed(alloc, &STATE)?;
    for k in 0..QUESTIONS.len() {
        let (name, from, asked, want) = QUESTIONS[k];
        if state.first(alloc, name, from, &test(alloc, asked)?)? != want {
            return Ok(Some(k));
        }
    }
    Ok(None)
}

#[test]
fn the_first_is_found(rt: HostRuntime) -> Result<(), Fail> {
    assert_eq!(rt; wrong_question(rt.alloc())?, None);
    Ok(())
}

// the pairs of names below 8 that are joined, as 8 times the one plus the other
fn joined_pairs(alloc: Global) -> Result<Names, Memory> {
    let state = indexed(alloc, &STATE)?;
    let mut pairs = Items::new(alloc);
    for left in 0..8u32 {
        for right in left + 1..8u32 {
            if state.same_name(alloc, left, right)? {
                pairs.push(8 * left + right)?;
            }
        }
    }
    Ok(pairs)
}

#[test]
fn names_are_joined(rt: HostRuntime) -> Result<(), Fail> {
    let pairs = joined_pairs(rt.alloc())?;
    assert_eq!(rt; pairs.as_slice(), [10, 11, 19, 37, 38, 46].as_slice());
    Ok(())
}

// whether the state holds just these, in this order
fn holds(alloc: Global, state: &Indexed, all: &[Held]) -> Result<bool, Memory> {
    if state.len() != all.len() {
        return Ok(false);
    }
    for k in 0..all.len() {
        let want = atom(alloc, all[k])?;
        if !state.at(k).same(&want) || !state.has(&want) {
            return Ok(false);
        }
    }
    Ok(true)
}

const FEW: [Held; 4] = [
    Held::Int(1),
    Held::Same(1, 2),
    Held::Int(1),
    Held::Named(2, 0),
];

#[test]
fn the_first_of_equal_ones_is_removed(rt: HostRuntime) -> Result<(), Fail> {
    let alloc = rt.alloc();
    let mut state = indexed(alloc, &FEW)?;
    assert!(rt; state.remove(&atom(alloc, Held::Int(1))?));
    assert!(rt;
        holds(
            alloc,
            &state,
            &[Held::Same(1, 2), Held::Int(1), Held::Named(2, 0)]
        )?
    );
    // an equation is held as it stands
    assert!(rt; !state.remove(&atom(alloc, Held::Same(2, 1))?));
    assert!(rt; !state.has(&atom(alloc, Held::Int(2))?));
    Ok(())
}

#[test]
fn places_are_filled_and_emptied(rt: HostRuntime) -> Result<(), Fail> {
    let alloc = rt.alloc();
    let mut state = indexed(alloc, &FEW)?;
    let before = state.copy(alloc)?;
    if state.len() > 3 {
        let taken = state.take_at(1);
        assert!(rt; taken.same(&atom(alloc, Held::Same(1, 2))?));
    }
    if state.len() > 2 {
        state.insert(2, atom(alloc, Held::Function(3, 1))?)?;
    }
    state.add(atom(alloc, Held::Lock(1, 1))?)?;
    assert!(rt;
        holds(
            alloc,
            &state,
            &[
                Held::Int(1),
                Held::Int(1),
                Held::Function(3, 1),
                Held::Named(2, 0),
                Held::Lock(1, 1)
            ]
        )?
    );
    assert!(rt; holds(alloc, &before, &FEW)?);
    Ok(())
}
