//! Where an `adopts` names a data type that isn't exclusive.
ghost use Rattle.std.specs.Prelude.{◌<◌, length};
ghost use Rattle.mz_decl.specs.Places.{IsFirst, IsBelow};
ghost use Rattle.mz_decl.specs.View.{plain_decls};
ghost use Rattle.mz_tree.specs.Saying.{Says};
ghost use Rattle.mz_modes.specs.Adopted.{IsImmutable, DeclarationAdopts, StructureAdopts, IsNotExclusive};

use mz_decl::{Decls, earlier};
use mz_tree::Place;

/// The first place at which an `adopts` names an immutable data type, if there is one. It takes no memory.
pub fn not_exclusive(decls: &Decls) -> Option<Place>
    ensures { IsFirst (IsNotExclusive (plain_decls decls.now)) result }
{
    earlier(first_declaration(decls), first_structure(decls))
}

// the first of them at a data type
fn first_declaration(decls: &Decls) -> Option<Place>
    ensures { IsFirst (IsBelow (DeclarationAdopts (plain_decls decls.now)) (length (plain_decls decls.now).varieties)) result }
{
    let mut first = None;
    for k in 0..decls.varieties() {
        first = earlier(first, at_declaration(decls, k));
    }
    first
}

// the first of them at a structural type
fn first_structure(decls: &Decls) -> Option<Place>
    ensures { IsFirst (IsBelow (StructureAdopts (plain_decls decls.now)) (length (plain_decls decls.now).written)) result }
{
    let mut first = None;
    for k in 0..decls.written().len() {
        first = earlier(first, at_structure(decls, k));
    }
    first
}

// the place of data type `number`, where it adopts an immutable one
fn at_declaration(decls: &Decls, number: u32) -> Option<Place>
    requires { number < length (plain_decls decls.now).varieties }
    ensures { IsFirst (DeclarationAdopts (plain_decls decls.now) number) result }
{
    let variety = decls.variety(number);
    match variety.adopts {
        None => None,
        Some(adopted) => {
            if is_immutable(decls, adopted) {
                return Some(variety.place);
            }
            None
        }
    }
}

// the place of the `adopts` of structural type `number`, where it names an immutable data type
fn at_structure(decls: &Decls, number: usize) -> Option<Place>
    ensures { IsFirst (StructureAdopts (plain_decls decls.now) number) result }
{
    match decls.written().get(number) {
        None => None,
        Some(clause) => {
            if is_immutable(decls, clause.adopts) {
                return Some(clause.place);
            }
            None
        }
    }
}

// whether there is a data type of this number, and it is immutable
fn is_immutable(decls: &Decls, number: u32) -> bool
    ensures { Says result (IsImmutable (plain_decls decls.now) number) }
{
    if number >= decls.varieties() {
        return false;
    }
    if decls.variety(number).mutable {
        return false;
    }
    true
}
