//! A copy of each value is the same as the original, and not the same as a value that differs in one number.
use mz_tree::{
    Alike, Arith, Atom, Body, Case, Clause, Command, Con, Field, Fun, Memory, Need, Op, Place,
    Program, Sig, Ty, Variety,
};
use sqlite_items::Items;
use std::alloc::Global;
use std::test::Fail;

// whether both values were made, and a copy is the same as its original and not as the other value
fn differ<T: Alike>(alloc: Global, original: Result<T, Memory>, other: Result<T, Memory>) -> bool {
    match (original, other) {
        (Ok(original), Ok(other)) => match original.copy(alloc) {
            Ok(copy) => copy.same(&original) && !copy.same(&other),
            Err(_) => false,
        },
        _ => false,
    }
}

fn one<T: Drop>(alloc: Global, item: T) -> Result<Items<T>, Memory> {
    let mut items = Items::new(alloc);
    items.push(item)?;
    Ok(items)
}

fn place(col: u32) -> Place {
    Place { line: 1, col }
}

fn block(alloc: Global, n: u32) -> Result<Ty, Memory> {
    let fields = one(alloc, n)?;
    Ok(Ty::Block {
        con: 1,
        fields,
        adopts: None,
    })
}

fn atom(alloc: Global, n: u32) -> Result<Atom, Memory> {
    let ty = block(alloc, n)?;
    Ok(Atom::Has { name: 1, ty })
}

fn lock(alloc: Global, n: u32) -> Result<Ty, Memory> {
    let atom = atom(alloc, n)?;
    let atoms = one(alloc, atom)?;
    Ok(Ty::Lock(atoms))
}

fn sum(n: u32) -> Op {
    Op::Arith {
        op: Arith::Add,
        left: 1,
        right: n,
    }
}

fn command(n: u32) -> Command {
    Command {
        to: 1,
        op: sum(n),
        place: place(1),
    }
}

fn body(alloc: Global, n: u32) -> Result<Body, Memory> {
    let commands = one(alloc, command(n))?;
    Ok(Body {
        commands,
        result: 1,
        place: place(2),
    })
}

fn case(alloc: Global, n: u32) -> Result<Case, Memory> {
    let body = body(alloc, n)?;
    Ok(Case { con: 1, body })
}

fn choice(alloc: Global, n: u32) -> Result<Op, Memory> {
    let case = case(alloc, n)?;
    let cases = one(alloc, case)?;
    Ok(Op::Match {
        block: 1,
        variety: 1,
        cases,
        giving: Items::new(alloc),
    })
}

fn variety(alloc: Global, n: u32) -> Result<Variety, Memory> {
    let cons = one(alloc, n)?;
    Ok(Variety {
        name: Items::new(alloc),
        place: place(1),
        mutable: true,
        adopts: None,
        cons,
    })
}

fn field(alloc: Global, n: u32) -> Result<Field, Memory> {
    let content = atom(alloc, n)?;
    Ok(Field {
        name: Items::new(alloc),
        content,
    })
}

fn con(alloc: Global, n: u32) -> Result<Con, Memory> {
    let field = field(alloc, n)?;
    let fields = one(alloc, field)?;
    Ok(Con {
        name: Items::new(alloc),
        variety: 1,
        fields,
    })
}

fn need(alloc: Global, n: u32) -> Result<Need, Memory> {
    let atom = atom(alloc, n)?;
    Ok(Need {
        atom,
        consumed: true,
    })
}

fn sig(alloc: Global, n: u32) -> Result<Sig, Memory> {
    let need = need(alloc, n)?;
    let needs = one(alloc, need)?;
    Ok(Sig {
        name: Items::new(alloc),
        count: 1,
        needs,
        gives: Items::new(alloc),
    })
}

fn fun(alloc: Global, n: u32) -> Result<Fun, Memory> {
    let body = body(alloc, n)?;
    Ok(Fun {
        name: Items::new(alloc),
        sig: 1,
        body,
        spelling: Items::new(alloc),
    })
}

fn clause(n: u32) -> Clause {
    Clause {
        place: place(1),
        con: 1,
        adopts: n,
    }
}

fn program(alloc: Global, n: u32) -> Result<Program, Memory> {
    let fun = fun(alloc, n)?;
    let funs = one(alloc, fun)?;
    Ok(Program {
        varieties: Items::new(alloc),
        cons: Items::new(alloc),
        sigs: Items::new(alloc),
        funs,
        clauses: Items::new(alloc),
    })
}

#[test]
fn copies_of_types_and_bodies_are_the_same(rt: HostRuntime) {
    let alloc = rt.alloc();
    assert!(rt; differ(alloc, Ok(place(1)), Ok(place(2))), "place");
    assert!(rt; differ(alloc, Ok(Arith::Le), Ok(Arith::Lt)), "operator");
    assert!(rt; differ(alloc, lock(alloc, 1), lock(alloc, 2)), "type");
    assert!(rt; differ(alloc, atom(alloc, 1), atom(alloc, 2)), "permission");
    assert!(rt;
        differ(alloc, choice(alloc, 1), choice(alloc, 2)),
        "operation"
    );
    assert!(rt; differ(alloc, Ok(command(1)), Ok(command(2))), "command");
    assert!(rt; differ(alloc, case(alloc, 1), case(alloc, 2)), "case");
    assert!(rt; differ(alloc, body(alloc, 1), body(alloc, 2)), "body");
}

#[test]
fn copies_of_declarations_are_the_same(rt: HostRuntime) {
    let alloc = rt.alloc();
    assert!(rt;
        differ(alloc, variety(alloc, 1), variety(alloc, 2)),
        "data type"
    );
    assert!(rt; differ(alloc, field(alloc, 1), field(alloc, 2)), "field");
    assert!(rt; differ(alloc, con(alloc, 1), con(alloc, 2)), "constructor");
    assert!(rt; differ(alloc, need(alloc, 1), need(alloc, 2)), "need");
    assert!(rt; differ(alloc, sig(alloc, 1), sig(alloc, 2)), "signature");
    assert!(rt; differ(alloc, fun(alloc, 1), fun(alloc, 2)), "function");
    assert!(rt; differ(alloc, Ok(clause(1)), Ok(clause(2))), "clause");
    assert!(rt;
        differ(alloc, program(alloc, 1), program(alloc, 2)),
        "program"
    );
}

#[test]
fn a_match_branches_and_a_sum_does_not(rt: HostRuntime) -> Result<(), Fail> {
    let alloc = rt.alloc();
    let matched = choice(alloc, 1)?;
    assert!(rt; matched.branches());
    assert!(rt; !sum(1).branches());
    Ok(())
}
