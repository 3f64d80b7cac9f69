//! Where bodies and functions begin.
ghost use Rattle.std.specs.Prelude.{◌≡◌, IfOk, MatchOption, map};
ghost use Rattle.mz_tree.specs.View.{plain_body, plain_fun, plain_program};
ghost use Rattle.mz_named.specs.Bodies.{rest_of, start};
ghost use Rattle.mz_named.specs.Operations.{IsFunction};
ghost use Rattle.mz_named.specs.Planning.{IsCallee};
ghost use Rattle.mz_named.specs.View.{plain_value, plain_rest, plain_frame};

use crate::config::{Frame, Rest, Value};
use mz_tree::{Alike, Body, Fun, Memory, Program};
use sqlite_items::Items;
use std::alloc::Global;

/// All of a body.
pub fn rest_of(alloc: Global, body: &Body) -> Result<Rest, Memory>
    ensures { IfOk result (λ rest. plain_rest rest ≡ rest_of (plain_body body.now)) }
{
    let commands = body.commands.copy(alloc)?;
    Ok(Rest {
        commands,
        next: 0,
        value: body.result,
    })
}

/// The frame in which the function begins with these arguments.
pub fn start(alloc: Global, fun: &Fun, args: Items<Value>) -> Result<Frame, Memory>
    ensures { IfOk result (λ frame. plain_frame frame ≡ start (plain_fun fun.now) (map plain_value args)) }
{
    let rest = rest_of(alloc, &fun.body)?;
    Ok(Frame {
        values: args,
        rest,
        outer: Vec::new(alloc),
    })
}

/// The function of the program that the value is, if it is one with so many parameters. It takes no memory.
pub fn callee_of(program: &Program, value: Value, count: usize) -> Option<&Fun>
    ensures { MatchOption result (IsFunction (plain_program program.now) (plain_value value) count → ⊥)
        (λ fun. IsCallee (plain_program program.now) (plain_value value) count (plain_fun fun.now)) }
{
    let Value::Fun(number) = value else {
        return None;
    };
    let fun = program.funs.get(number as usize)?;
    let sig = program.sigs.get(fun.sig as usize)?;
    if sig.count as usize != count {
        return None;
    }
    Some(fun)
}
