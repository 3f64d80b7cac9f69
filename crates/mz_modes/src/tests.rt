//! Which types are duplicable and exclusive, which `adopts` are refused, and what declarations show.
use crate::*;
use mz_decl::{Decls, declarations, immutable_adopter};
use mz_tree::*;
use sqlite_items::Items;
use std::alloc::Global;
use std::test::Fail;

mod rules;

fn place(line: u32, col: u32) -> Place {
    Place { line, col }
}

fn block(alloc: Global, con: u32) -> Ty {
    Ty::Block {
        con,
        fields: Items::new(alloc),
        adopts: None,
    }
}

fn lock(alloc: Global) -> Result<Ty, Memory> {
    let mut atoms = Items::new(alloc);
    atoms.push(Atom::Has {
        name: 0,
        ty: Ty::Named(0),
    })?;
    Ok(Ty::Lock(atoms))
}

fn con(alloc: Global, variety: u32, content: Ty) -> Result<Con, Memory> {
    let mut fields = Items::new(alloc);
    fields.push(Field {
        name: Items::new(alloc),
        content: Atom::Has {
            name: 0,
            ty: content,
        },
    })?;
    Ok(Con {
        name: Items::new(alloc),
        variety,
        fields,
    })
}

// a data type on the line that is said, with one constructor
fn variety(
    alloc: Global,
    line: u32,
    mutable: bool,
    adopts: Option<u32>,
    con: u32,
) -> Result<Variety, Memory> {
    let mut cons = Items::new(alloc);
    cons.push(con)?;
    Ok(Variety {
        name: Items::new(alloc),
        place: place(line, 6),
        mutable,
        adopts,
        cons,
    })
}

fn declared(
    alloc: Global,
    varieties: Varieties,
    cons: Cons,
    clauses: Clauses,
) -> Result<Program, Memory> {
    let mut sigs = Items::new(alloc);
    sigs.push(Sig {
        name: Items::new(alloc),
        count: 3,
        needs: Items::new(alloc),
        gives: Items::new(alloc),
    })?;
    Ok(Program {
        varieties,
        cons,
        sigs,
        funs: Items::new(alloc),
        clauses,
    })
}

// a constructor without fields
fn empty(alloc: Global, variety: u32) -> Con {
    Con {
        name: Items::new(alloc),
        variety,
        fields: Items::new(alloc),
    }
}

// 0 is a mutable cell, 1 a list of integers, 2 holds 3, 3 holds a cell's block, 4 a held lock, 5 a lock over a cell, and 6
// has an empty constructor and one that holds a cell
fn kinds(alloc: Global) -> Result<Program, Memory> {
    let mut varieties = Items::new(alloc);
    varieties.push(variety(alloc, 1, true, None, 0)?)?;
    for k in 1..7 {
        varieties.push(variety(alloc, 2, false, None, k)?)?;
    }
    let mut cons = Items::new(alloc);
    cons.push(con(alloc, 0, Ty::Int)?)?;
    let mut list = con(alloc, 1, Ty::Int)?;
    list.fields.push(Field {
        name: Items::new(alloc),
        content: Atom::Has {
            name: 1,
            ty: Ty::Named(1),
        },
    })?;
    cons.push(list)?;
    cons.push(con(alloc, 2, Ty::Named(3))?)?;
    cons.push(con(alloc, 3, block(alloc, 0))?)?;
    cons.push(con(alloc, 4, Ty::Locked)?)?;
    cons.push(con(alloc, 5, lock(alloc)?)?)?;
    cons.push(empty(alloc, 6))?;
    cons.push(con(alloc, 6, Ty::Named(0))?)?;
    cons.push(empty(alloc, 1))?;
    declared(alloc, varieties, cons, Items::new(alloc))
}

fn modes_in(alloc: Global, program: &Program) -> Option<Modes> {
    match declarations(alloc, program) {
        Ok(Some(decls)) => match modes(alloc, &decls) {
            Ok(modes) => Some(modes),
            Err(_) => None,
        },
        _ => None,
    }
}

fn is(modes: &Modes, ty: Ty, duplicable: bool, exclusive: bool) -> bool {
    if modes.exclusive(&ty) != exclusive {
        return false;
    }
    modes.duplicable(&Atom::Has { name: 0, ty }) == duplicable
}

#[test]
fn data_types_have_modes(rt: HostRuntime) -> Result<(), Fail> {
    let alloc = rt.alloc();
    let program = kinds(alloc)?;
    match modes_in(alloc, &program) {
        None => assert!(rt; false, "modes"),
        Some(modes) => {
            assert!(rt; is(&modes, Ty::Named(0), false, true), "mutable");
            assert!(rt; is(&modes, Ty::Named(1), true, false), "a list of integers");
            assert!(rt; is(&modes, Ty::Named(2), false, false), "two types deep");
            assert!(rt; is(&modes, Ty::Named(3), false, false), "of a block");
            assert!(rt; is(&modes, Ty::Named(4), false, false), "of a held lock");
            assert!(rt; is(&modes, Ty::Named(5), true, false), "of a lock");
            assert!(rt; is(&modes, Ty::Named(6), false, false), "by its second");
        }
    }
    Ok(())
}

#[test]
fn other_types_have_modes(rt: HostRuntime) -> Result<(), Fail> {
    let alloc = rt.alloc();
    let program = kinds(alloc)?;
    let guard = lock(alloc)?;
    match modes_in(alloc, &program) {
        None => assert!(rt; false, "modes"),
        Some(modes) => {
            assert!(rt; is(&modes, Ty::Int, true, false), "int");
            assert!(rt; is(&modes, Ty::Unknown, true, false), "unknown");
            assert!(rt; is(&modes, Ty::Function(0), true, false), "function");
            assert!(rt; is(&modes, Ty::Dynamic, true, false), "dynamic");
            assert!(rt; is(&modes, Ty::Locked, false, false), "locked");
            assert!(rt; is(&modes, block(alloc, 0), false, true), "mutable");
            assert!(rt; is(&modes, block(alloc, 3), true, false), "immutable");
            assert!(rt; is(&modes, guard, true, false), "lock");
            let equation = Atom::Same { left: 0, right: 1 };
            assert!(rt; modes.duplicable(&equation), "equation");
        }
    }
    Ok(())
}

// data type 0 is immutable and 1 mutable; with what each adopts, and structural types: place, constructor, adopted
fn adopting(
    alloc: Global,
    first: Option<u32>,
    second: Option<u32>,
    types: &[(Place, u32, u32)],
) -> Result<Program, Memory> {
    let mut varieties = Items::new(alloc);
    varieties.push(variety(alloc, 2, false, first, 0)?)?;
    varieties.push(variety(alloc, 4, true, second, 1)?)?;
    let mut cons = Items::new(alloc);
    cons.push(con(alloc, 0, Ty::Int)?)?;
    cons.push(con(alloc, 1, Ty::Int)?)?;
    let mut clauses = Items::new(alloc);
    for (place, con, adopts) in types {
        clauses.push(Clause {
            place: *place,
            con: *con,
            adopts: *adopts,
        })?;
    }
    declared(alloc, varieties, cons, clauses)
}

// the place of an `adopts` that names what is immutable
fn of_immutable(alloc: Global, program: &Program) -> Option<Place> {
    match declarations(alloc, program) {
        Ok(Some(decls)) => match modes(alloc, &decls) {
            Err(ModeFault::NotExclusive(place)) => Some(place),
            _ => None,
        },
        _ => None,
    }
}

#[test]
fn the_first_adopts_on_what_is_immutable_is_refused(rt: HostRuntime) -> Result<(), Fail> {
    let alloc = rt.alloc();
    let data = adopting(alloc, Some(1), Some(0), &[(place(3, 1), 0, 1)])?;
    assert!(rt; immutable_adopter(&data) == Some(place(2, 6)), "data type");
    let itself = adopting(alloc, Some(0), None, &[])?;
    assert!(rt;
        immutable_adopter(&itself) == Some(place(2, 6)),
        "of itself"
    );
    let later = adopting(alloc, Some(1), None, &[(place(1, 1), 1, 0)])?;
    assert!(rt;
        immutable_adopter(&later) == Some(place(2, 6)),
        "before the other"
    );
    let field = adopting(alloc, Some(1), None, &[(place(2, 3), 0, 1)])?;
    assert!(rt; immutable_adopter(&field) == Some(place(2, 3)), "field");
    let giving = adopting(
        alloc,
        None,
        None,
        &[(place(8, 9), 0, 1), (place(7, 50), 0, 1)],
    )?;
    assert!(rt; immutable_adopter(&giving) == Some(place(7, 50)), "giving");
    Ok(())
}

#[test]
fn the_first_adopts_of_what_is_immutable_is_refused(rt: HostRuntime) -> Result<(), Fail> {
    let alloc = rt.alloc();
    let data = adopting(alloc, None, Some(0), &[(place(5, 1), 1, 0)])?;
    assert!(rt;
        of_immutable(alloc, &data) == Some(place(4, 6)),
        "data type"
    );
    let need = adopting(alloc, None, Some(0), &[(place(4, 5), 1, 0)])?;
    assert!(rt; of_immutable(alloc, &need) == Some(place(4, 5)), "need");
    let guard = adopting(
        alloc,
        None,
        Some(1),
        &[(place(9, 9), 1, 0), (place(9, 8), 1, 0)],
    )?;
    assert!(rt; of_immutable(alloc, &guard) == Some(place(9, 8)), "lock");
    Ok(())
}

// whether the look-ups tell what `adopting` declares
fn tells(decls: &Decls) -> bool {
    if decls.varieties() != 2 || decls.cons() != 2 || decls.sigs() != 1 || decls.funs() != 0 {
        return false;
    }
    decls.variety(1).mutable
        && decls.con(1).variety == 1
        && decls.sig(0).count == 3
        && decls.clause(1) == Some(1)
        && decls.only_con(0) == Some(0)
        && decls.written().len() == 1
}

#[test]
fn look_ups_see_the_program(rt: HostRuntime) -> Result<(), Fail> {
    let alloc = rt.alloc();
    let program = adopting(alloc, None, Some(1), &[(place(5, 5), 1, 1)])?;
    match declarations(alloc, &program)? {
        Some(decls) => assert!(rt; tells(&decls), "look-ups"),
        None => assert!(rt; false, "declarations"),
    }
    Ok(())
}
