//! Names in a source that must be declared: where one isn't, that is a fault, and something else stands for it, so that
//! later faults are found too.
ghost use Rattle.std.specs.Prelude.{◌≡◌};
ghost use Rattle.std.specs.Option.{option_copied};
ghost use Rattle.mz_scope.specs.Types.{name_in, con_by_name, data_by_name};
ghost use Rattle.mz_scope.specs.Trees.{word_of};
ghost use Rattle.mz_scope.specs.View.{made_of, Comes, as_is};

use crate::fault::Cause;
use crate::making::Making;
use crate::names::ConEntry;
use crate::words::Source;
use mz_names::Scope;
use mz_token::Token;
use mz_tree::Memory;

/// The number of a name of a scope.
pub(crate) fn name_in(
    source: &Source<'_>,
    scope: &Scope,
    name: &Token,
    making: &mut Making,
) -> Result<u32, Memory>
    ensures { Comes as_is (name_in scope.now (word_of source.now.text.now name.now)) making.old result making.new }
{
    match scope.find(source.spelled(name)) {
        Some(number) => Ok(number),
        None => {
            making.fault(Cause::Unknown, name.place)?;
            Ok(0)
        }
    }
}

/// A constructor.
pub(crate) fn con_by_name<'a>(
    source: &Source<'a>,
    name: &Token,
    making: &mut Making,
) -> Result<Option<&'a ConEntry>, Memory>
    ensures { Comes option_copied (con_by_name source.now.globals.now (word_of source.now.text.now name.now)) making.old result making.new }
{
    match source.globals.con_named(source.spelled(name)) {
        Some(con) => Ok(Some(con)),
        None => {
            making.fault(Cause::Unknown, name.place)?;
            Ok(None)
        }
    }
}

/// The number of a data type.
pub(crate) fn data_by_name(
    source: &Source<'_>,
    name: &Token,
    making: &mut Making,
) -> Result<u32, Memory>
    ensures { Comes as_is (data_by_name source.now.globals.now (word_of source.now.text.now name.now)) making.old result making.new }
{
    match source.globals.data_named(source.spelled(name)) {
        Some(number) => Ok(number),
        None => {
            making.fault(Cause::Unknown, name.place)?;
            Ok(0)
        }
    }
}
