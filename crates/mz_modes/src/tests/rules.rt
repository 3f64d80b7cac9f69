//! What rules are made of: using up, opening, callees, and what a call needs and gives back.
use super::{kinds, modes_in};
use crate::*;
use mz_decl::declarations;
use mz_perm::State;
use mz_tree::*;
use sqlite_items::Items;
use std::alloc::Global;
use std::test::Fail;

fn has(name: u32, ty: Ty) -> Atom {
    Atom::Has { name, ty }
}

// so many permissions of name 7 at data type `variety`
fn copies(alloc: Global, variety: u32, count: usize) -> Result<Atoms, Memory> {
    let mut atoms = Items::new(alloc);
    for _ in 0..count {
        atoms.push(has(7, Ty::Named(variety)))?;
    }
    Ok(atoms)
}

fn state_of(alloc: Global, atoms: &Atoms) -> Result<State, Memory> {
    let mut state = State::new(alloc);
    let all = atoms.as_slice();
    for i in 0..all.len() {
        state.add(all[i].copy(alloc)?)?;
    }
    Ok(state)
}

// what `use_up_all` answers where name 7 is held so many times at the data type and wanted so many times, and how often it
// is held then
fn used(
    alloc: Global,
    variety: u32,
    held: usize,
    wanted: usize,
) -> Result<(Option<bool>, usize), Memory> {
    let program = kinds(alloc)?;
    let mut state = state_of(alloc, &copies(alloc, variety, held)?)?;
    let Some(modes) = modes_in(alloc, &program) else {
        return Ok((None, 0));
    };
    let wanted = copies(alloc, variety, wanted)?;
    let answer = match use_up_all(alloc, &modes, &mut state, &wanted) {
        Ok(()) => true,
        Err(RuleFault::NoInstance) => false,
        Err(RuleFault::Memory) => return Err(Memory),
    };
    Ok((Some(answer), state.atoms().len()))
}

#[test]
fn permissions_are_used_up(rt: HostRuntime) -> Result<(), Fail> {
    let alloc = rt.alloc();
    assert!(rt; used(alloc, 0, 1, 1)? == (Some(true), 0), "a cell");
    assert!(rt;
        used(alloc, 0, 2, 1)? == (Some(true), 1),
        "one of two cells"
    );
    assert!(rt; used(alloc, 0, 2, 2)? == (Some(true), 0), "two cells");
    assert!(rt; used(alloc, 0, 1, 2)? == (Some(false), 1), "one cell twice");
    assert!(rt; used(alloc, 0, 0, 1)? == (Some(false), 0), "no cell");
    assert!(rt; used(alloc, 1, 1, 2)? == (Some(true), 1), "one list twice");
    assert!(rt; used(alloc, 1, 0, 1)? == (Some(false), 0), "no list");
    Ok(())
}

// whether name 7, a cell or a value of another data type, is opened at the constructor with names from `fresh` on, where
// 300 occurs too; and how many permissions are held then
fn opened(
    alloc: Global,
    variety: u32,
    con: u32,
    fresh: u32,
) -> Result<(Option<bool>, usize), Memory> {
    let program = kinds(alloc)?;
    let mut state = state_of(alloc, &copies(alloc, variety, 1)?)?;
    state.add(Atom::Same {
        left: 1,
        right: 300,
    })?;
    let Some(decls) = declarations(alloc, &program)? else {
        return Ok((None, 0));
    };
    let Ok(modes) = modes(alloc, &decls) else {
        return Ok((None, 0));
    };
    let answer = match open_at(alloc, &decls, &modes, &mut state, 7, variety, con, fresh) {
        Ok(()) => true,
        Err(RuleFault::NoInstance) => false,
        Err(RuleFault::Memory) => return Err(Memory),
    };
    Ok((Some(answer), state.atoms().len()))
}

#[test]
fn data_types_are_opened(rt: HostRuntime) -> Result<(), Fail> {
    let alloc = rt.alloc();
    // the block, the content of its field and the equation
    assert!(rt;
        opened(alloc, 0, 0, 256)? == (Some(true), 3),
        "the first name that isn't core"
    );
    assert!(rt;
        opened(alloc, 0, 0, 255)? == (Some(false), 2),
        "a core name"
    );
    assert!(rt;
        opened(alloc, 0, 0, 300)? == (Some(false), 2),
        "a name that occurs"
    );
    assert!(rt;
        opened(alloc, 0, 0, 4_294_967_295)? == (Some(true), 3),
        "the last name"
    );
    // a list is duplicable, so that its permission stays, and its constructor 1 has two fields
    assert!(rt;
        opened(alloc, 1, 1, 4_294_967_294)? == (Some(true), 5),
        "the last two names"
    );
    assert!(rt;
        opened(alloc, 1, 1, 4_294_967_295)? == (Some(false), 2),
        "past 32 bits"
    );
    assert!(rt;
        opened(alloc, 1, 1, 299)? == (Some(false), 2),
        "the second name occurs"
    );
    assert!(rt;
        opened(alloc, 1, 8, 0)? == (Some(true), 3),
        "no field, any number"
    );
    assert!(rt;
        opened(alloc, 0, 99, 256)? == (Some(false), 2),
        "no constructor"
    );
    Ok(())
}

#[test]
fn data_types_and_constructors_are_mutable(rt: HostRuntime) -> Result<(), Fail> {
    let alloc = rt.alloc();
    let program = kinds(alloc)?;
    match modes_in(alloc, &program) {
        None => assert!(rt; false, "modes"),
        Some(modes) => {
            assert!(rt; modes.is_mutable(0), "a cell");
            assert!(rt; !modes.is_mutable(1), "a list");
            assert!(rt; !modes.is_mutable(3), "affine and immutable");
            assert!(rt; !modes.is_mutable(99), "no data type");
            assert!(rt; modes.is_mutable_con(0), "of a cell");
            assert!(rt; !modes.is_mutable_con(1), "of a list");
            assert!(rt; !modes.is_mutable_con(99), "no constructor");
        }
    }
    Ok(())
}

// the number of parameters of the callee 5 that is said to be of signature `sig`, where it is held as one of signature 0,
// which has three
fn parameters(alloc: Global, name: u32, count: usize, sig: u32) -> Result<Option<u32>, Memory> {
    let program = kinds(alloc)?;
    let Some(decls) = declarations(alloc, &program)? else {
        return Ok(None);
    };
    let mut state = State::new(alloc);
    state.add(has(5, Ty::Function(0)))?;
    state.add(has(6, Ty::Function(99)))?;
    match callee_sig(&decls, &state, name, count, &has(name, Ty::Function(sig))) {
        Some(sig) => Ok(Some(sig.count)),
        None => Ok(None),
    }
}

#[test]
fn callees_have_signatures(rt: HostRuntime) -> Result<(), Fail> {
    let alloc = rt.alloc();
    assert!(rt; parameters(alloc, 5, 3, 0)? == Some(3), "three parameters");
    assert!(rt; parameters(alloc, 5, 2, 0)? == None, "another number");
    assert!(rt; parameters(alloc, 4, 3, 0)? == None, "not held");
    assert!(rt; parameters(alloc, 6, 3, 99)? == None, "no signature");
    Ok(())
}

fn need(name: u32, variety: u32, consumed: bool) -> Need {
    Need {
        atom: has(name, Ty::Named(variety)),
        consumed,
    }
}

// a cell that is consumed, one that isn't, and two lists
fn needs(alloc: Global) -> Result<Needs, Memory> {
    let mut all = Items::new(alloc);
    all.push(need(0, 0, true))?;
    all.push(need(1, 0, false))?;
    all.push(need(1, 1, false))?;
    all.push(need(0, 1, true))?;
    Ok(all)
}

#[test]
fn needs_are_given_back(rt: HostRuntime) -> Result<(), Fail> {
    let alloc = rt.alloc();
    let program = kinds(alloc)?;
    let needs = needs(alloc)?;
    assert!(rt; needed(alloc, &needs)?.len() == 4, "all are needed");
    match modes_in(alloc, &program) {
        None => assert!(rt; false, "modes"),
        Some(modes) => {
            let back = gives_back(alloc, &modes, &needs)?;
            let mut wanted = Items::new(alloc);
            wanted.push(has(1, Ty::Named(0)))?;
            assert!(rt; back.same(&wanted), "the cell that isn't consumed");
        }
    }
    Ok(())
}

#[test]
fn arguments_are_put_for_parameters(rt: HostRuntime) -> Result<(), Fail> {
    let alloc = rt.alloc();
    let mut names = Items::new(alloc);
    names.push(8)?;
    names.push(9)?;
    let mut atoms = Items::new(alloc);
    atoms.push(has(1, Ty::Int))?;
    atoms.push(Atom::Same { left: 0, right: 1 })?;
    let mut wanted = Items::new(alloc);
    wanted.push(has(9, Ty::Int))?;
    wanted.push(Atom::Same { left: 8, right: 9 })?;
    let put = at_args(alloc, &names, atoms.as_slice())?;
    assert!(rt; put.same(&wanted), "in order");
    Ok(())
}
