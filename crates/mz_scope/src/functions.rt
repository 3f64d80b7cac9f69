//! Functions. The first core names of a function are the parameters of its signature; each command of its body binds one
//! more, and at most 256 may be.
ghost use Rattle.std.specs.Prelude.{◌≡◌, [], map, slice_get, IfOk};
ghost use Rattle.mz_tree.specs.View.{plain_fun};
ghost use Rattle.mz_scope.specs.Bodies.{flat_block};
ghost use Rattle.mz_scope.specs.Names.{numbered};
ghost use Rattle.mz_scope.specs.Making.{CoreName as PlainName};
ghost use Rattle.mz_scope.specs.Declarations.{with_params, too_many, function};
ghost use Rattle.mz_scope.specs.Tables.{param_word};
ghost use Rattle.mz_scope.specs.Trees.{word_of, block_tree, fun_tree};
ghost use Rattle.mz_scope.specs.View.{made_of, core_name_of, Comes, as_is};
ghost use Rattle.mz_scope.specs.FunctionBodies.{function_body_of, body_part, sig_by_name};

use crate::bodies::block;
use crate::declares::declares;
use crate::entries::Param;
use crate::fault::Cause;
use crate::making::{CoreName, Making};
use crate::parameters::{param_names, param_scope};
use crate::words::Source;
use mz_parse::{Block, FunctionDeclaration};
use mz_token::Token;
use mz_tree::{Alike, Body, Fun, Memory, Texts};
use sqlite_items::Items;
use std::alloc::Global;

// a function's body with its core names
#[derive(Drop)]
struct FunctionParts {
    body: Body,
    names: Items<CoreName>,
}

// the first core names of a function
#[tactic(auto, unfolding(crate::specs::View::made_of))]
fn begin(making: &mut Making, names: Items<CoreName>)
    ensures { made_of making.new ≡ record (made_of making.old) { names = map core_name_of names } }
{
    making.names = names;
}

// all core names of a function are taken out
#[tactic(auto, unfolding(crate::specs::View::made_of))]
fn end(alloc: Global, making: &mut Making) -> Items<CoreName>
    ensures { (map core_name_of result ≡ (made_of making.old).names) × (made_of making.new ≡ record (made_of making.old) { names = [] }) }
{
    std::mem::replace(&mut making.names, Items::new(alloc))
}

// the body of a function with these parameters
fn body_with(
    source: &Source<'_>,
    params: &[Param],
    written: &Block,
    making: &mut Making,
) -> Result<FunctionParts, Memory>
    ensures { Comes function_body_of (with_params (map param_word params.now) (flat_block source.now.globals.now (numbered 0 (map param_word params.now)) (block_tree source.now.text.now written.now))) making.old result making.new }
{
    let names = param_names(source.alloc, params)?;
    let scope = param_scope(source.alloc, params)?;
    begin(making, names);
    let body = block(source, &scope, written, making)?;
    let names = end(source.alloc, making);
    Ok(FunctionParts { body, names })
}

// the body of a function of the signature of a name
fn body_of(
    source: &Source<'_>,
    sig: &Token,
    written: &Block,
    making: &mut Making,
) -> Result<FunctionParts, Memory>
    ensures { Comes function_body_of (body_part source.now.globals.now (word_of source.now.text.now sig.now) (block_tree source.now.text.now written.now)) making.old result making.new }
{
    match source.globals.params_named(source.spelled(sig)) {
        Some(params) => body_with(source, params.as_slice(), written, making),
        None => {
            let none = Items::new(source.alloc);
            body_with(source, none.as_slice(), written, making)
        }
    }
}

// the number of the signature of a name
fn sig_by_name(source: &Source<'_>, name: &Token, making: &mut Making) -> Result<u32, Memory>
    ensures { Comes as_is (sig_by_name source.now.globals.now (word_of source.now.text.now name.now)) making.old result making.new }
{
    match source.globals.sig_named(source.spelled(name)) {
        Some(number) => Ok(number),
        None => {
            making.fault(Cause::Unknown, name.place)?;
            Ok(0)
        }
    }
}

// a function has at most 256 core names
fn too_many(names: &[CoreName], making: &mut Making) -> Result<(), Memory>
    ensures { Comes as_is (too_many (slice_get (map core_name_of names.now) 256)) making.old result making.new }
{
    if names.len() <= 256 {
        return Ok(());
    }
    making.fault(Cause::TooMany, names[256].place)
}

// how core names are spelled
fn spellings(alloc: Global, names: &[CoreName]) -> Result<Texts, Memory>
    ensures { IfOk result (λ it. it ≡ map (λ (n : PlainName). n.spelling) (map core_name_of names.now)) }
{
    let mut texts = Items::new(alloc);
    for i in 0..names.len() {
        texts.push(names[i].spelling.copy(alloc)?)?;
    }
    Ok(texts)
}

/// The function of a number: a program has at most 1,000.
pub(crate) fn function(
    source: &Source<'_>,
    number: u32,
    one: &FunctionDeclaration,
    making: &mut Making,
) -> Result<Fun, Memory>
    ensures { Comes plain_fun (function source.now.globals.now number (fun_tree source.now.text.now one.now)) making.old result making.new }
{
    let name = source.spelled(&one.name);
    declares(
        source,
        source.globals.fun_named(name),
        number,
        1000,
        &one.name,
        making,
    )?;
    let sig = sig_by_name(source, &one.sig, making)?;
    let parts = body_of(source, &one.sig, &one.block, making)?;
    too_many(parts.names.as_slice(), making)?;
    let spelling = spellings(source.alloc, parts.names.as_slice())?;
    Ok(Fun {
        name: Items::from_slice(source.alloc, name)?,
        sig,
        body: parts.body,
        spelling,
    })
}
