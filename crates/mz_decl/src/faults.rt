//! Where an `adopts` stands on what is immutable.
ghost use Rattle.std.specs.Prelude.{length};
ghost use Rattle.mz_tree.specs.View.{plain_program};
ghost use Rattle.mz_decl.specs.Places.{IsFirst, IsBelow};
ghost use Rattle.mz_decl.specs.Declarations.{OnDeclaration, OnStructure, IsImmutableAdopter};

use crate::earlier;
use mz_tree::{Place, Program};

/// The first place at which an `adopts` stands on what is immutable, if there is one. It takes no memory.
pub fn immutable_adopter(program: &Program) -> Option<Place>
    ensures { IsFirst (IsImmutableAdopter (plain_program program.now)) result }
{
    earlier(first_declaration(program), first_structure(program))
}

// the first of them at a data type
fn first_declaration(program: &Program) -> Option<Place>
    ensures { IsFirst (IsBelow (OnDeclaration (plain_program program.now)) (length program.now.varieties)) result }
{
    let mut first = None;
    for k in 0..program.varieties.len() {
        first = earlier(first, at_declaration(program, k));
    }
    first
}

// the first of them at a structural type
fn first_structure(program: &Program) -> Option<Place>
    ensures { IsFirst (IsBelow (OnStructure (plain_program program.now)) (length program.now.clauses)) result }
{
    let mut first = None;
    for k in 0..program.clauses.len() {
        first = earlier(first, at_structure(program, k));
    }
    first
}

// the place of data type `number`, where it is immutable and adopts
fn at_declaration(program: &Program, number: usize) -> Option<Place>
    ensures { IsFirst (OnDeclaration (plain_program program.now) number) result }
{
    match program.varieties.get(number) {
        None => None,
        Some(variety) => {
            if variety.mutable {
                return None;
            }
            match variety.adopts {
                None => None,
                Some(_) => Some(variety.place),
            }
        }
    }
}

// the place of the `adopts` of structural type `number`, where its constructor is immutable
fn at_structure(program: &Program, number: usize) -> Option<Place>
    ensures { IsFirst (OnStructure (plain_program program.now) number) result }
{
    match program.clauses.get(number) {
        None => None,
        Some(clause) => match program.cons.get(clause.con as usize) {
            None => None,
            Some(con) => match program.varieties.get(con.variety as usize) {
                None => None,
                Some(variety) => {
                    if variety.mutable {
                        return None;
                    }
                    Some(clause.place)
                }
            },
        },
    }
}
