//! A derivation is printed.
//!
//! The text is made from its front to its end, in one vector: each function writes a part of it behind what stands there
//! already, and its contract says which. A function that writes a list goes along it, and its loop keeps that the text with what is
//! left of the list is the whole.
ghost use Rattle.std.specs.Prelude.{◌≡◌, ◌∷◌, ◌++◌, IfOk, OnOk, map};
ghost use Rattle.mz_tree.specs.View.{plain_atoms, plain_fun, plain_program};
ghost use Rattle.mz_deriv.specs.Scripts.{script_cases_of};
ghost use Rattle.mz_deriv.specs.View.{plain_derivation, plain_item, plain_script, plain_script_cases};
ghost use Rattle.mz_script.specs.Pieces.{Case_line, Fun_line, body_pieces, case_pieces, fun_pieces, join_pieces};
ghost use Rattle.mz_script.specs.Parts.{item_pieces, lines_text};
ghost use Rattle.mz_script.specs.Texts.{AreSpelled, IsScriptText};

mod lines;
mod words;

use lines::{case_line, do_line, fun_line, join_line, step_line};
use mz_deriv::{Derivation, Item, Script, ScriptCase};
use mz_tree::{Atom, Fun, Memory, Program};
use std::alloc::Global;
use words::text;

/// The text of a derivation, which has the form of a script for this program and names only what can be written. Where the program
/// is one that was read, no other derivation has this text. It fails only where memory is wanting.
pub fn print_script(
    alloc: Global,
    program: &Program,
    derivation: &Derivation,
) -> Result<Vec<u8>, Memory>
    requires { AreSpelled (plain_program program.now) (plain_derivation derivation.now) }
    ensures { IfOk result (λ text. IsScriptText (plain_program program.now) text.items (plain_derivation derivation.now)) }
{
    let mut out = Vec::new(alloc);
    text(&mut out, b"%derivation 1\n")?;
    let funs = program.funs.as_slice();
    functions(&mut out, program, funs, derivation.scripts.as_slice())?;
    Ok(out)
}

// Each function with its script.
fn functions(
    out: &mut Vec<u8>,
    program: &Program,
    funs: &[Fun],
    scripts: &[Script],
) -> Result<(), Memory>
    ensures { OnOk result (out.new.items ≡ out.old.items ++ lines_text (plain_program program.now) (fun_pieces (map plain_fun funs.now) (map plain_script scripts.now))) }
{
    for k in 0..funs.len().min(scripts.len()) {
        function(out, program, &funs[k], &scripts[k])?;
    }
    Ok(())
}

// A function's line and its script.
fn function(out: &mut Vec<u8>, program: &Program, fun: &Fun, script: &Script) -> Result<(), Memory>
    ensures { OnOk result (out.new.items ≡ out.old.items ++ lines_text (plain_program program.now) (Fun_line fun.now.name ∷ body_pieces (plain_script script.now))) }
{
    fun_line(out, fun.name.as_slice())?;
    body(out, program, script.items.as_slice())
}

// The items of a body, and its end.
#[cycle(bodies)]
fn body(out: &mut Vec<u8>, program: &Program, items: &[Item]) -> Result<(), Memory>
    ensures { OnOk result (out.new.items ≡ out.old.items ++ lines_text (plain_program program.now) (body_pieces (map plain_item items.now))) }
{
    for i in 0..items.len() {
        item(out, program, &items[i])?;
    }
    text(out, b"end\n")
}

// A view step, or a command with its cases and the join.
#[cycle(bodies)]
fn item(out: &mut Vec<u8>, program: &Program, item: &Item) -> Result<(), Memory>
    ensures { OnOk result (out.new.items ≡ out.old.items ++ lines_text (plain_program program.now) (item_pieces (plain_item item.now))) }
{
    match item {
        Item::Step(step) => step_line(out, program, step),
        Item::Do { uses, cases, join } => {
            do_line(out, program, uses)?;
            branches(out, program, cases.as_slice(), join.as_slice())
        }
    }
}

// The cases of a command, and the join where there is a case.
#[cycle(bodies)]
fn branches(
    out: &mut Vec<u8>,
    program: &Program,
    cases: &[ScriptCase],
    join: &[Atom],
) -> Result<(), Memory>
    ensures { OnOk result (out.new.items ≡ out.old.items ++ lines_text (plain_program program.now) (case_pieces (script_cases_of (plain_script_cases cases.now)) ++ join_pieces (script_cases_of (plain_script_cases cases.now)) (plain_atoms join.now))) }
{
    for k in 0..cases.len() {
        case(out, program, &cases[k])?;
    }
    if cases.is_empty() {
        return Ok(());
    }
    join_line(out, program, join)
}

// A case: its number, and its body.
#[cycle(bodies)]
fn case(out: &mut Vec<u8>, program: &Program, case: &ScriptCase) -> Result<(), Memory>
    ensures { OnOk result (out.new.items ≡ out.old.items ++ lines_text (plain_program program.now) (Case_line case.now.fresh ∷ body_pieces (plain_script case.now.body))) }
{
    case_line(out, case.fresh)?;
    body(out, program, case.body.items.as_slice())
}
