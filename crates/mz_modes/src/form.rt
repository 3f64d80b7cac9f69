//! From declarations to their modes.
ghost use Rattle.mz_decl.specs.View.{plain_decls};
ghost use Rattle.mz_modes.specs.Modes.{HasModes};

use crate::adopted::not_exclusive;
use crate::marks::{mutable_cons, mutable_varieties, round};
use crate::{ModeFault, Modes};
use mz_decl::Decls;
use std::alloc::Global;

/// The modes of declarations, or the first place at which an `adopts` names an immutable data type. It goes through all
/// constructors once more for each data type that it marks, at most.
pub fn modes(alloc: Global, decls: &Decls) -> Result<Modes, ModeFault>
    ensures { HasModes (plain_decls decls.now) result }
{
    if let Some(place) = not_exclusive(decls) {
        return Err(ModeFault::NotExclusive(place));
    }
    let mutable = mutable_varieties(alloc, decls)?;
    let mutable_cons = mutable_cons(alloc, decls, mutable.as_slice())?;
    let mut affine = mutable_varieties(alloc, decls)?;
    while round(decls, mutable_cons.as_slice(), &mut affine) {}
    Ok(Modes {
        affine,
        mutable,
        mutable_cons,
    })
}
