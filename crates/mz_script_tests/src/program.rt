//! The programs of which texts of derivations are read.
ghost use Rattle.std.specs.Prelude.{IfSome};
ghost use Rattle.mz_tree.specs.Scoped.{Scoped};
ghost use Rattle.mz_tree.specs.View.{plain_program};

use mz_parse::parse;
use mz_scope::resolve;
use mz_token::tokens;
use mz_tree::Program;
use std::alloc::Global;

/// The program of a source of at most 1,000,000 bytes, if it has one and memory suffices.
pub(crate) fn program(alloc: Global, source: &[u8]) -> Option<Program>
    ensures { IfSome result (λ p. Scoped (plain_program p)) }
{
    if source.len() > 1_000_000 {
        return None;
    }
    let Ok(found) = tokens(alloc, source) else {
        return None;
    };
    let Ok(surface) = parse(alloc, &found) else {
        return None;
    };
    match resolve(alloc, &surface) {
        Ok(program) => Some(program),
        Err(_) => None,
    }
}
