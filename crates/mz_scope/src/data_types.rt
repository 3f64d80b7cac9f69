//! Data types with their constructors and fields. A field's number is its place among the fields of its constructor, and
//! types of fields speak of them by these numbers.
ghost use Rattle.std.specs.Prelude.{◌≡◌, map, option_map, IfOk};
ghost use Rattle.mz_tree.specs.View.{plain_variety, plain_con, plain_field};
ghost use Rattle.mz_scope.specs.Syntax.{FieldTree};
ghost use Rattle.mz_scope.specs.Names.{find, numbered, ConEntry};
ghost use Rattle.mz_scope.specs.Declarations.{fields_from, cons_from, adopted_by, data_type};
ghost use Rattle.mz_scope.specs.Members.{one_field, one_con};
ghost use Rattle.mz_scope.specs.Trees.{word_of, field_tree, con_tree, data_tree};
ghost use Rattle.mz_scope.specs.View.{made_of, Comes, as_is};

use crate::counts::{after, number, numbers};
use crate::declares::declares;
use crate::known::data_by_name;
use crate::making::Making;
use crate::names::Globals;
use crate::types::typed;
use crate::words::Source;
use mz_names::Scope;
use mz_parse::{Constructor, DataDeclaration, FieldDeclaration};
use mz_token::Token;
use mz_tree::{Con, Cons, Field, Fields, Memory, Variety};
use sqlite_items::Items;

// the names of fields, numbered in order
fn field_scope(source: &Source<'_>, fields: &[FieldDeclaration]) -> Result<Scope, Memory>
    ensures { IfOk result (λ it. it ≡ numbered 0 (map (λ (f : FieldTree). f.name) (map (field_tree source.now.text.now) fields.now))) }
{
    let mut scope = Scope::new();
    for i in 0..fields.len() {
        scope.push(source.alloc, source.spelled(&fields[i].name), number(i)?)?;
    }
    Ok(scope)
}

// the field of a number: a constructor has at most 32
fn field(
    source: &Source<'_>,
    scope: &Scope,
    number: u32,
    field: &FieldDeclaration,
    making: &mut Making,
) -> Result<Field, Memory>
    ensures { Comes plain_field (one_field source.now.globals.now scope.now number (field_tree source.now.text.now field.now)) making.old result making.new }
{
    let name = source.spelled(&field.name);
    declares(source, scope.find(name), number, 32, &field.name, making)?;
    let content = typed(source, scope, number, &field.ty, making)?;
    Ok(Field {
        name: Items::from_slice(source.alloc, name)?,
        content,
    })
}

// the fields of a constructor
fn fields(
    source: &Source<'_>,
    scope: &Scope,
    all: &[FieldDeclaration],
    making: &mut Making,
) -> Result<Fields, Memory>
    ensures { Comes (map plain_field) (fields_from source.now.globals.now scope.now 0 (map (field_tree source.now.text.now) all.now)) making.old result making.new }
{
    let mut fields = Items::new(source.alloc);
    for i in 0..all.len() {
        fields.push(field(source, scope, number(i)?, &all[i], making)?)?;
    }
    Ok(fields)
}

// the number of the constructor that is the first of a name
fn con_number(globals: &Globals, text: &[u8]) -> Option<u32>
    ensures { result ≡ option_map (λ (c : ConEntry). c.number) (find globals.now.cons text.now) }
{
    match globals.con_named(text) {
        Some(con) => Some(con.number()),
        None => None,
    }
}

// the constructor of a number, of a data type: a program has at most 1,000
fn con(
    source: &Source<'_>,
    variety: u32,
    number: u32,
    con: &Constructor,
    making: &mut Making,
) -> Result<Con, Memory>
    ensures { Comes plain_con (one_con source.now.globals.now variety number (con_tree source.now.text.now con.now)) making.old result making.new }
{
    let name = source.spelled(&con.name);
    declares(
        source,
        con_number(source.globals, name),
        number,
        1000,
        &con.name,
        making,
    )?;
    let scope = field_scope(source, con.fields.as_slice())?;
    let fields = fields(source, &scope, con.fields.as_slice(), making)?;
    Ok(Con {
        name: Items::from_slice(source.alloc, name)?,
        variety,
        fields,
    })
}

/// The constructors of a data type, the first with this number.
pub(crate) fn cons(
    source: &Source<'_>,
    variety: u32,
    first: u32,
    all: &[Constructor],
    making: &mut Making,
) -> Result<Cons, Memory>
    ensures { Comes (map plain_con) (cons_from source.now.globals.now variety first (map (con_tree source.now.text.now) all.now)) making.old result making.new }
{
    let mut cons = Items::new(source.alloc);
    for i in 0..all.len() {
        cons.push(con(source, variety, after(first, i)?, &all[i], making)?)?;
    }
    Ok(cons)
}

// what a data type adopts, if anything
fn adopted_by(
    source: &Source<'_>,
    name: Option<Token>,
    making: &mut Making,
) -> Result<Option<u32>, Memory>
    ensures { Comes as_is (adopted_by source.now.globals.now (option_map (word_of source.now.text.now) name)) making.old result making.new }
{
    match name {
        Some(name) => Ok(Some(data_by_name(source, &name, making)?)),
        None => Ok(None),
    }
}

/// A data type, which so many data types and signatures stand before, and whose first constructor has this number.
pub(crate) fn data_type(
    source: &Source<'_>,
    before: u32,
    first: u32,
    one: &DataDeclaration,
    making: &mut Making,
) -> Result<Variety, Memory>
    ensures { Comes plain_variety (data_type source.now.globals.now before first (data_tree source.now.text.now one.now)) making.old result making.new }
{
    let name = source.spelled(&one.name);
    declares(
        source,
        source.globals.type_position(name),
        before,
        1000,
        &one.name,
        making,
    )?;
    let adopts = adopted_by(source, one.adopts, making)?;
    Ok(Variety {
        name: Items::from_slice(source.alloc, name)?,
        place: one.name.place,
        mutable: one.mutable.is_some(),
        adopts,
        cons: numbers(source.alloc, first, one.cons.len())?,
    })
}
