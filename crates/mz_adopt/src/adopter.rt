//! What a permission says of an adopter.
ghost use Rattle.mz_tree.specs.View.{plain_ty, plain_atom};
ghost use Rattle.mz_decl.specs.View.{plain_decls};
ghost use Rattle.mz_adopt.specs.Adopters.{AdoptsOf, TypeAdoptsOf};

use mz_decl::Decls;
use mz_tree::{Atom, Ty};

/// The data type whose blocks the name adopts by this permission; none where the permission says of no such type. It
/// takes no memory.
pub fn adopted_by(decls: &Decls, adopter: u32, atom: &Atom) -> Option<u32>
    ensures { AdoptsOf (plain_decls decls.now) adopter (plain_atom atom.now) result }
{
    match atom {
        Atom::Same { .. } => None,
        Atom::Has { name, ty } => {
            if *name == adopter {
                return adopted_at(decls, ty);
            }
            None
        }
    }
}

// the same of a type
fn adopted_at(decls: &Decls, ty: &Ty) -> Option<u32>
    ensures { TypeAdoptsOf (plain_decls decls.now) (plain_ty ty.now) result }
{
    match ty {
        Ty::Block { adopts, .. } => *adopts,
        Ty::Named(variety) => decls.clause_at(*variety),
        _ => None,
    }
}
