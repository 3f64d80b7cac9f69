//! Programs from the sources of the tables.
ghost use Rattle.std.specs.Prelude.{◌<◌, ◌^◌, ◌-◌, length, IfSome, IsTrue};
ghost use Rattle.mz_tree.specs.View.{plain_program};
ghost use Rattle.mz_tree.specs.Scoped.{Scoped};
ghost use Rattle.mz_modes.specs.Adopted.{Declared};

use crate::tests::declared::{DECLARATIONS, FUNCTIONS, MAIN};
use crate::tests::form::Source;
use mz_decl::well_formed;
use mz_modes::modes;
use mz_parse::parse;
use mz_scope::resolve;
use mz_token::tokens;
use mz_tree::{Memory, Program};
use std::alloc::Global;

/// The whole text of a source.
pub(crate) fn text(alloc: Global, source: Source) -> Result<String, Memory> {
    let mut text = String::new(alloc);
    match source {
        Source::Whole(whole) => text.push_str(whole)?,
        Source::Main(main) => {
            text.push_str(DECLARATIONS)?;
            text.push_str(main)?;
            text.push_str(FUNCTIONS)?;
        }
        Source::Beside(function) => {
            text.push_str(DECLARATIONS)?;
            text.push_str(function)?;
            text.push_str(FUNCTIONS)?;
            text.push_str(MAIN)?;
        }
    }
    Ok(text)
}

/// The program of a text, if it is one.
pub(crate) fn program_of(alloc: Global, text: &[u8]) -> Option<Program>
    requires { length text.now < 2 ^ 32 - 1 }
    ensures { IfSome result (λ program. Scoped (plain_program program)) }
{
    let Ok(found) = tokens(alloc, text) else {
        return None;
    };
    let Ok(surface) = parse(alloc, &found) else {
        return None;
    };
    match resolve(alloc, &surface) {
        Ok(program) => Some(program),
        Err(_) => None,
    }
}

/// Whether the program is declared. Want of memory is no.
pub(crate) fn is_declared(alloc: Global, program: &Program) -> bool
    requires { Scoped (plain_program program.now) }
    ensures { IsTrue result → Declared (plain_program program.now) }
{
    match well_formed(alloc, program) {
        Ok(decls) => match modes(alloc, &decls) {
            Ok(_) => true,
            Err(_) => false,
        },
        Err(_) => false,
    }
}
