//! Selects: the constructor and the number of a field that is read or written.
ghost use Rattle.std.specs.Prelude.{◌≡◌, option_map};
ghost use Rattle.std.specs.Option.{option_copied};
ghost use Rattle.mz_scope.specs.Names.{holders};
ghost use Rattle.mz_scope.specs.Bodies.{field_in, the_holder, select_con};
ghost use Rattle.mz_scope.specs.Trees.{word_of, select_of};
ghost use Rattle.mz_scope.specs.Kinds.{read_step};
ghost use Rattle.mz_scope.specs.View.{made_of, Comes, as_is};

use crate::fault::Cause;
use crate::fields::number_of;
use crate::known::con_by_name;
use crate::making::Making;
use crate::names::ConEntry;
use crate::words::Source;
use mz_parse::Select;
use mz_token::Token;
use mz_tree::{Memory, Op};

/// A field's number, in a constructor.
pub(crate) fn field_in(
    source: &Source<'_>,
    con: Option<&ConEntry>,
    field: &Token,
    making: &mut Making,
) -> Result<u32, Memory>
    ensures { Comes as_is (field_in (option_copied con.entry) (word_of source.now.text.now field.now)) making.old result making.new }
{
    let Some(con) = con else {
        return Ok(0);
    };
    match con.fields().find(source.spelled(field)) {
        Some(number) => Ok(number),
        None => {
            making.fault(Cause::Unknown, field.place)?;
            Ok(0)
        }
    }
}

// the one constructor that has the field
fn the_holder<'a>(
    source: &Source<'a>,
    field: &Token,
    making: &mut Making,
) -> Result<Option<&'a ConEntry>, Memory>
    ensures { Comes option_copied (the_holder (holders source.now.globals.now (word_of source.now.text.now field.now).text) (word_of source.now.text.now field.now)) making.old result making.new }
{
    let text = source.spelled(field);
    match source.globals.only_holder(text) {
        Some(con) => Ok(Some(con)),
        None => {
            if !source.globals.has_holder(text) {
                making.fault(Cause::Unknown, field.place)?;
            }
            making.fault(Cause::Shape, field.place)?;
            Ok(None)
        }
    }
}

/// The constructor of a select.
pub(crate) fn select_con<'a>(
    source: &Source<'a>,
    select: &Select,
    making: &mut Making,
) -> Result<Option<&'a ConEntry>, Memory>
    ensures { Comes option_copied (select_con source.now.globals.now (option_map (word_of source.now.text.now) select.now.con) (word_of source.now.text.now select.now.field)) making.old result making.new }
{
    match &select.con {
        Some(con) => con_by_name(source, con, making),
        None => the_holder(source, &select.field, making),
    }
}

/// A field of the block x is read.
pub(crate) fn read(
    source: &Source<'_>,
    x: u32,
    select: &Select,
    making: &mut Making,
) -> Result<u32, Memory>
    ensures { Comes as_is (read_step source.now.globals.now x (select_of source.now.text.now select.now)) making.old result making.new }
{
    let con = select_con(source, select, making)?;
    let field = field_in(source, con, &select.field, making)?;
    making.command(
        source.alloc,
        select.field.place,
        Op::Read {
            block: x,
            con: number_of(con),
            field,
        },
    )
}
