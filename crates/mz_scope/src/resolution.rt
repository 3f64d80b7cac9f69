//! From the tree of a source to its flat program. One walk over the tree makes the program and gathers all that is wrong;
//! the first of that is then answered.
ghost use Rattle.std.specs.Prelude.{◌≡◌, ◌&&◌, map, List, slice_get, codes, IfOk};
ghost use Rattle.std.specs.Str.{bytes_eq};
ghost use Rattle.mz_tree.specs.View.{plain_sig, plain_program};
ghost use Rattle.mz_scope.specs.Syntax.{Declaration as PlainDeclaration};
ghost use Rattle.mz_scope.specs.Trees.{tree_of};
ghost use Rattle.mz_scope.specs.Faults.{IsFirst};
ghost use Rattle.mz_scope.specs.Flattening.{faults_of};
ghost use Rattle.mz_tree.specs.Main.{has_no_param, has_main};
ghost use Rattle.mz_scope.specs.Resolves.{Resolves};
ghost use Rattle.mz_scope.specs.Walking.{Walks};

use crate::declarations::program_of;
use crate::fault::{Cause, Fault};
use crate::first::first_fault;
use crate::making::Making;
use crate::names::Globals;
use crate::words::Source;
use mz_parse::Surface;
use mz_tree::{Fun, Memory, Place, Program, Sig};
use sqlite_items::Items;
use std::alloc::Global;
use thiserror::Error;

/// Why a source has no flat program.
#[derive(Clone, Copy, Debug, PartialEq, Eq, Error)]
pub enum ScopeFault {
    /// A name isn't declared in its sort and scope: the name.
    #[error("unknown name at {0}")]
    Unknown(Place),
    /// A name is declared again: the second one.
    #[error("name declared a second time at {0}")]
    Twice(Place),
    /// Fields, arguments or constructors don't fit what is declared: the constructor, the callee, the field, the case or
    /// the key `retag`.
    #[error("fields, arguments or constructors at {0} do not fit their declaration")]
    Shape(Place),
    /// A match lacks a constructor of its data type: the key `match`.
    #[error("match at {0} lacks a constructor of its data type")]
    NotExhaustive(Place),
    /// A limit is passed: the first item past it.
    #[error("limit passed by what stands at {0}")]
    TooMany(Place),
    /// There is no function `main` without parameters.
    #[error("no function main without parameters")]
    NoMain,
    /// Memory is wanting.
    #[error("not enough memory to hold the flat program of the source")]
    Memory,
}

// what comes of a source: its program, and all that is wrong
#[derive(Drop)]
struct Walked {
    program: Program,
    faults: Items<Fault>,
}

// a fault as it is answered
fn answer(fault: Fault) -> ScopeFault
    ensures { (tree : List PlainDeclaration) → IsFirst (faults_of tree) fault → Resolves tree (Err result) }
{
    let place = fault.place;
    match fault.cause {
        Cause::Unknown => ScopeFault::Unknown(place),
        Cause::Twice => ScopeFault::Twice(place),
        Cause::Shape => ScopeFault::Shape(place),
        Cause::NotExhaustive => ScopeFault::NotExhaustive(place),
        Cause::TooMany => ScopeFault::TooMany(place),
    }
}

// whether a function is `main`, and its signature has no parameter
fn is_main(sigs: &[Sig], fun: &Fun) -> bool
    ensures { result ≡ bytes_eq fun.now.name (codes "main") && has_no_param (slice_get (map plain_sig sigs.now) fun.now.sig) }
{
    if fun.name.as_slice() != b"main".as_slice() {
        return false;
    }
    let sig = fun.sig as usize;
    if sig >= sigs.len() {
        return false;
    }
    sigs[sig].count == 0
}

// whether there is a function `main` whose signature has no parameter
fn has_main(program: &Program) -> bool
    ensures { result ≡ has_main (plain_program program.now) }
{
    let funs = program.funs.as_slice();
    for i in 0..funs.len() {
        if is_main(program.sigs.as_slice(), &funs[i]) {
            return true;
        }
    }
    false
}

// one walk over a source
fn walk(alloc: Global, surface: &Surface) -> Result<Walked, Memory>
    ensures { IfOk result (λ it. Walks (tree_of surface.now) it) }
{
    let globals = Globals::new(alloc, surface)?;
    let source = Source {
        alloc,
        text: surface.text.as_slice(),
        globals: &globals,
    };
    let mut making = Making::new(alloc);
    let mut program = program_of(&source, surface.declarations.as_slice(), &mut making)?;
    program.clauses = making.clauses;
    Ok(Walked {
        program,
        faults: making.faults,
    })
}

/// The flat program of a source; or of all that is wrong with its names and shapes the first, by its place and then in
/// the order of [`ScopeFault`]; or that there is no `main`, where nothing else is wrong. It asks nothing of the tree, whose
/// tokens may have any places.
pub fn resolve(alloc: Global, surface: &Surface) -> Result<Program, ScopeFault>
    ensures { Resolves (tree_of surface.now) result }
{
    match walk(alloc, surface) {
        Ok(walked) => match first_fault(walked.faults.as_slice()) {
            Some(fault) => Err(answer(fault)),
            None => {
                if has_main(&walked.program) {
                    Ok(walked.program)
                } else {
                    Err(ScopeFault::NoMain)
                }
            }
        },
        Err(_) => Err(ScopeFault::Memory),
    }
}
