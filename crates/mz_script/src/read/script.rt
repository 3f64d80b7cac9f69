//! The call for a whole text.
ghost use Rattle.std.specs.Prelude.{◌≡◌, ◌<◌, ◌^◌, ◌-◌, ◌+◌, ℕ, List, length, map, IfOk, IfErr};
ghost use Rattle.mz_tree.specs.Scoped.{Scoped};
ghost use Rattle.mz_tree.specs.View.{plain_fun, plain_program};
ghost use Rattle.mz_deriv.specs.Scripts.{Item};
ghost use Rattle.mz_deriv.specs.View.{plain_derivation, plain_script};
ghost use Rattle.mz_script.specs.Cutting.{lines};
ghost use Rattle.mz_script.specs.ReadLines.{piece_of};
ghost use Rattle.mz_script.specs.Reading.{fun_at, fun_by, funs_by, head_at, script_by};
ghost use Rattle.mz_script.specs.Reads.{GivesScripts, HasCause, IsFaultOf, Settles, TellsLine};
ghost use Rattle.mz_script.specs.Stops.{Gives};
ghost use Rattle.mz_script.specs.Texts.{IsScriptText, IsWrongLine};

use crate::ScriptFault;
use crate::read::bodies::commands;
use crate::read::line::{is_fun, is_head};
use crate::read::lines::{count, next};
use crate::read::stop::Stop;
use mz_deriv::{Derivation, Script, Scripts};
use mz_tree::{Fun, Program};
use sqlite_items::Items;
use std::alloc::Global;

// The first line of a script.
fn head_line<'a>(alloc: Global, program: &Program, bytes: &'a [u8]) -> Result<&'a [u8], Stop>
    requires scoped { Scoped (plain_program program.now) }
    ensures { Gives (λ x. (tt, lines x.now)) result (head_at (piece_of (plain_program program.now)) (lines bytes.now)) }
{
    match next(alloc, program, bytes)? {
        None => Err(Stop::Unexpected(0)),
        Some((line, rest)) => {
            if !is_head(line) {
                return Err(Stop::Unexpected(count(bytes)));
            }
            Ok(rest)
        }
    }
}

// The line with which a function begins.
fn fun_line<'a>(
    alloc: Global,
    program: &Program,
    name: &[u8],
    bytes: &'a [u8],
) -> Result<&'a [u8], Stop>
    requires scoped { Scoped (plain_program program.now) }
    ensures { Gives (λ x. (tt, lines x.now)) result (fun_at (piece_of (plain_program program.now)) name.now (lines bytes.now)) }
{
    match next(alloc, program, bytes)? {
        None => Err(Stop::Unexpected(0)),
        Some((line, rest)) => {
            if !is_fun(line, name) {
                return Err(Stop::Unexpected(count(bytes)));
            }
            Ok(rest)
        }
    }
}

// The script of one function.
#[tactic(auto, unfolding(crate::specs::Reading::fun_by))]
fn fun<'a>(
    alloc: Global,
    program: &Program,
    fun: &Fun,
    bytes: &'a [u8],
) -> Result<(Script, &'a [u8]), Stop>
    requires scoped { Scoped (plain_program program.now) }
    ensures { Gives (λ x. (plain_script x.0, lines x.1.now)) result (fun_by (piece_of (plain_program program.now)) (plain_fun fun.now) (lines bytes.now)) }
{
    let rest = fun_line(alloc, program, fun.name.as_slice(), bytes)?;
    let (items, rest) = commands(alloc, program, fun.body.commands.as_slice(), rest)?;
    Ok((Script { items }, rest))
}

// The scripts of functions, in order.
fn funs<'a>(
    alloc: Global,
    program: &Program,
    funs: &[Fun],
    bytes: &'a [u8],
) -> Result<(Scripts, &'a [u8]), Stop>
    requires scoped { Scoped (plain_program program.now) }
    ensures { Gives (λ x. (map plain_script x.0, lines x.1.now)) result (funs_by (piece_of (plain_program program.now)) (map plain_fun funs.now) (lines bytes.now)) }
{
    let mut scripts = Items::new(alloc);
    let mut rest = bytes;
    for i in 0..funs.len() {
        let (script, more) = fun(alloc, program, &funs[i], rest)?;
        scripts.push(script)?;
        rest = more;
    }
    Ok((scripts, rest))
}

// The scripts of all functions, and what is left of the bytes.
fn front<'a>(alloc: Global, program: &Program, bytes: &'a [u8]) -> Result<(Scripts, &'a [u8]), Stop>
    requires scoped { Scoped (plain_program program.now) }
    ensures { Gives (λ x. (map plain_script x.0, lines x.1.now)) result (script_by (piece_of (plain_program program.now)) (plain_program program.now).funs (lines bytes.now)) }
{
    let rest = head_line(alloc, program, bytes)?;
    funs(alloc, program, program.funs.as_slice(), rest)
}

// The scripts of all functions, in all the bytes.
fn all_scripts(alloc: Global, program: &Program, bytes: &[u8]) -> Result<Scripts, Stop>
    requires scoped { Scoped (plain_program program.now) }
    ensures { Settles (plain_program program.now) bytes.now result }
{
    match front(alloc, program, bytes) {
        Err(stop) => Err(stop),
        Ok((scripts, rest)) => {
            if rest.len() == 0 {
                Ok(scripts)
            } else {
                Err(Stop::Unexpected(count(rest)))
            }
        }
    }
}

// The fault of a stop: the number, from 1, of the line from which so many lines are left.
#[tactic(auto, using(crate::proofs::WholeScripts::few_lines))]
fn fault(bytes: &[u8], stop: Stop) -> ScriptFault
    requires { length bytes.now < 2 ^ 32 - 1 }
    ensures { IsFaultOf bytes.now stop result }
{
    match stop {
        Stop::Unexpected(left) => ScriptFault::Line((count(bytes).saturating_sub(left) + 1) as u32),
        Stop::Memory => ScriptFault::Memory,
    }
}

/// The derivation of which fewer than 2^32-1 bytes are the text, for a program that was read. No bytes are the text of two.
///
/// It refuses bytes at the first line that isn't lawful in its place, counted from 1: the lines before it begin the text of
/// a derivation of the program, and none goes on with it. Bytes behind the last line end are a line too. Where the lines end
/// too early the number is the one behind the last. It takes memory for the derivation, and may refuse for want of it.
pub fn read_script(
    alloc: Global,
    program: &Program,
    bytes: &[u8],
) -> Result<Derivation, ScriptFault>
    requires scoped { Scoped (plain_program program.now) }
    requires short { length bytes.now < 2 ^ 32 - 1 }
    ensures text { IfOk result (λ d. IsScriptText (plain_program program.now) bytes.now (plain_derivation d)) }
    ensures cause { IfErr result (λ fault. HasCause (plain_program program.now) bytes.now fault) }
    ensures gives { (scripts : List (List Item)) → IsScriptText (plain_program program.now) bytes.now scripts → GivesScripts result scripts }
    ensures tells { (n : ℕ) → IsWrongLine (plain_program program.now) bytes.now n → TellsLine result n }
{
    match all_scripts(alloc, program, bytes) {
        Ok(scripts) => Ok(Derivation { scripts }),
        Err(stop) => Err(fault(bytes, stop)),
    }
}
