//! Signatures. A parameter's number is its place, and the result is named after the parameters: these are visible in all of
//! a signature, the result behind its arrow.
ghost use Rattle.std.specs.Prelude.{◌≡◌, map, IfOk};
ghost use Rattle.mz_tree.specs.View.{plain_need, plain_sig};
ghost use Rattle.mz_scope.specs.Syntax.{ParamTree};
ghost use Rattle.mz_scope.specs.Names.{numbered};
ghost use Rattle.mz_scope.specs.Declarations.{params_from, needs_of, signature};
ghost use Rattle.mz_scope.specs.Members.{one_param, one_need};
ghost use Rattle.mz_scope.specs.Trees.{param_tree, need_tree, sig_tree};
ghost use Rattle.mz_scope.specs.View.{made_of, Comes};

use crate::counts::number;
use crate::declares::{declares, is_other};
use crate::fault::Cause;
use crate::making::Making;
use crate::types::{atom, atoms, typed};
use crate::words::Source;
use mz_names::Scope;
use mz_parse::{NeedDeclaration, Parameter, SignatureDeclaration};
use mz_tree::{Memory, Need, Needs, Sig};
use sqlite_items::Items;

// the names of parameters, numbered in order
fn scope_of(source: &Source<'_>, params: &[Parameter]) -> Result<Scope, Memory>
    ensures { IfOk result (λ it. it ≡ numbered 0 (map (λ (p : ParamTree). p.name) (map (param_tree source.now.text.now) params.now))) }
{
    let mut scope = Scope::new();
    for i in 0..params.len() {
        scope.push(source.alloc, source.spelled(&params[i].name), number(i)?)?;
    }
    Ok(scope)
}

// what is needed for the parameter of a number: a signature has at most 32
fn param(
    source: &Source<'_>,
    scope: &Scope,
    number: u32,
    param: &Parameter,
    making: &mut Making,
) -> Result<Need, Memory>
    ensures { Comes plain_need (one_param source.now.globals.now scope.now number (param_tree source.now.text.now param.now)) making.old result making.new }
{
    declares(
        source,
        scope.find(source.spelled(&param.name)),
        number,
        32,
        &param.name,
        making,
    )?;
    let atom = typed(source, scope, number, &param.ty, making)?;
    Ok(Need {
        atom,
        consumed: param.consumes.is_some(),
    })
}

// what is needed for the parameters
fn params(
    source: &Source<'_>,
    scope: &Scope,
    all: &[Parameter],
    making: &mut Making,
) -> Result<Needs, Memory>
    ensures { Comes (map plain_need) (params_from source.now.globals.now scope.now 0 (map (param_tree source.now.text.now) all.now)) making.old result making.new }
{
    let mut needs = Items::new(source.alloc);
    for i in 0..all.len() {
        needs.push(param(source, scope, number(i)?, &all[i], making)?)?;
    }
    Ok(needs)
}

// a permission that is needed beside them
fn need(
    source: &Source<'_>,
    scope: &Scope,
    need: &NeedDeclaration,
    making: &mut Making,
) -> Result<Need, Memory>
    ensures { Comes plain_need (one_need source.now.globals.now scope.now (need_tree source.now.text.now need.now)) making.old result making.new }
{
    let atom = atom(source, scope, &need.atom, making)?;
    Ok(Need {
        atom,
        consumed: need.consumes.is_some(),
    })
}

// the permissions that are needed beside them
fn needs(
    source: &Source<'_>,
    scope: &Scope,
    all: &[NeedDeclaration],
    making: &mut Making,
) -> Result<Needs, Memory>
    ensures { Comes (map plain_need) (needs_of source.now.globals.now scope.now (map (need_tree source.now.text.now) all.now)) making.old result making.new }
{
    let mut needs = Items::new(source.alloc);
    for i in 0..all.len() {
        needs.push(need(source, scope, &all[i], making)?)?;
    }
    Ok(needs)
}

/// A signature, which so many data types and signatures stand before.
pub(crate) fn signature(
    source: &Source<'_>,
    before: u32,
    one: &SignatureDeclaration,
    making: &mut Making,
) -> Result<Sig, Memory>
    ensures { Comes plain_sig (signature source.now.globals.now before (sig_tree source.now.text.now one.now)) making.old result making.new }
{
    let name = source.spelled(&one.name);
    declares(
        source,
        source.globals.type_position(name),
        before,
        1000,
        &one.name,
        making,
    )?;
    let params_count = number(one.params.len())?;
    let mut scope = scope_of(source, one.params.as_slice())?;
    let mut asked = params(source, &scope, one.params.as_slice(), making)?;
    let others = needs(source, &scope, one.needs.as_slice(), making)?;
    asked.append(others)?;
    let result_name = source.spelled(&one.result);
    scope.push(source.alloc, result_name, params_count)?;
    let twice = is_other(scope.find(result_name), params_count);
    making.fault_if(twice, Cause::Twice, one.result.place)?;
    let mut given = Items::new(source.alloc);
    given.push(typed(source, &scope, params_count, &one.ty, making)?)?;
    let more = atoms(source, &scope, one.gives.as_slice(), making)?;
    given.append(more)?;
    Ok(Sig {
        name: Items::from_slice(source.alloc, name)?,
        count: params_count,
        needs: asked,
        gives: given,
    })
}
