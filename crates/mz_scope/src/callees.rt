//! Names as values: a local name's value is its own, another name is a function's.
ghost use Rattle.std.specs.Prelude.{◌≡◌, codes};
ghost use Rattle.mz_tree.specs.View.{plain_atoms};
ghost use Rattle.mz_scope.specs.Bodies.{name_value, given};
ghost use Rattle.mz_scope.specs.Trees.{word_of, atom_trees};
ghost use Rattle.mz_scope.specs.Kinds.{function_number};
ghost use Rattle.mz_scope.specs.View.{made_of, Comes, as_is};

use crate::fault::Cause;
use crate::making::Making;
use crate::types::atoms;
use crate::words::Source;
use mz_names::Scope;
use mz_token::Token;
use mz_tree::{Atoms, Memory, Op};
use mz_types::SurfaceAtom;

// the number of a function
fn function(source: &Source<'_>, name: &Token, making: &mut Making) -> Result<u32, Memory>
    ensures { Comes as_is (function_number source.now.globals.now (word_of source.now.text.now name.now)) making.old result making.new }
{
    match source.globals.fun_named(source.spelled(name)) {
        Some(number) => Ok(number),
        None => {
            making.fault(Cause::Unknown, name.place)?;
            Ok(0)
        }
    }
}

/// A name's value.
pub(crate) fn name_value(
    source: &Source<'_>,
    scope: &Scope,
    name: &Token,
    making: &mut Making,
) -> Result<u32, Memory>
    ensures { Comes as_is (name_value source.now.globals.now scope.now (word_of source.now.text.now name.now)) making.old result making.new }
{
    match scope.find(source.spelled(name)) {
        Some(local) => Ok(local),
        None => {
            let number = function(source, name, making)?;
            making.command(source.alloc, name.place, Op::Fun(number))
        }
    }
}

/// The permissions after `giving`, where `result` is the name that the command binds.
pub(crate) fn given(
    source: &Source<'_>,
    scope: &Scope,
    giving: &[SurfaceAtom],
    making: &mut Making,
) -> Result<Atoms, Memory>
    ensures { Comes plain_atoms (given source.now.globals.now scope.now (atom_trees source.now.text.now giving.now)) making.old result making.new }
{
    let next = making.next_name()?;
    let mut inner = scope.copy()?;
    inner.push(source.alloc, b"result", next)?;
    atoms(source, &inner, giving, making)
}
