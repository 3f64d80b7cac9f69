//! Using up the contents of fields.
ghost use Rattle.std.specs.Prelude.{IfOk, map};
ghost use Rattle.mz_tree.specs.View.{plain_field};
ghost use Rattle.mz_decl.specs.Contents.{contents};
ghost use Rattle.mz_decl.specs.View.{plain_decls};
ghost use Rattle.mz_modes.specs.Affine.{AffineAtom};
ghost use Rattle.mz_modes.specs.Modes.{AreModes};
ghost use Rattle.mz_modes.specs.Answers.{UsedAll};

use mz_decl::Decls;
use mz_modes::{Modes, use_up};
use mz_perm::{State, substitute};
use mz_tree::{Field, Memory, Names};
use std::alloc::Global;

// uses up the content of each field in order, with these names for the fields; where one is missing the state is left
// as it then is
pub(crate) fn use_contents(
    alloc: Global,
    decls: &Decls,
    modes: &Modes,
    state: &mut State,
    fields: &[Field],
    names: &Names,
) -> Result<bool, Memory>
    requires { AreModes (plain_decls decls.now) modes.now }
    ensures { IfOk result (λ all. UsedAll all (AffineAtom (plain_decls decls.now)) (contents names.now (map plain_field fields.now)) state.old state.new) }
{
    for i in 0..fields.len() {
        let part = substitute(alloc, &fields[i].content, names)?;
        if !use_up(modes, state, &part) {
            return Ok(false);
        }
    }
    Ok(true)
}
