//! What is answered to a source, in words.
ghost use Rattle.std.specs.Prelude.{◌≡◌, length, IfSome, IsTrue};
ghost use Rattle.mz_tree.specs.Scoped.{Scoped};
ghost use Rattle.mz_tree.specs.View.{plain_program};
ghost use Rattle.mz_modes.specs.Adopted.{Declared};

use mz_decl::well_formed;
use mz_deriv::{Derivation, check_derivation};
use mz_elab::{ElabFault, elaborate};
use mz_modes::modes;
use mz_parse::parse;
use mz_scope::resolve;
use mz_token::tokens;
use mz_tree::{Atom, Place, Program, Ty};
use std::alloc::Global;
use std::test::Fail;

/// The program of a source of at most 1,000,000 bytes, if it has one and memory suffices.
fn program(alloc: Global, source: &[u8]) -> Option<Program>
    ensures { IfSome result (λ p. Scoped (plain_program p)) }
{
    if source.len() > 1_000_000 {
        return None;
    }
    let Ok(found) = tokens(alloc, source) else {
        return None;
    };
    let Ok(surface) = parse(alloc, &found) else {
        return None;
    };
    match resolve(alloc, &surface) {
        Ok(program) => Some(program),
        Err(_) => None,
    }
}

/// Whether the program is declared. Want of memory is no.
fn is_declared(alloc: Global, program: &Program) -> bool
    requires { Scoped (plain_program program.now) }
    ensures { IsTrue result → Declared (plain_program program.now) }
{
    match well_formed(alloc, program) {
        Ok(decls) => match modes(alloc, &decls) {
            Ok(_) => true,
            Err(_) => false,
        },
        Err(_) => false,
    }
}

/// Whether the check takes the derivation. Want of memory is no.
fn derives(alloc: Global, program: &Program, derivation: &Derivation) -> bool
    requires scoped { Scoped (plain_program program.now) }
    requires declared { Declared (plain_program program.now) }
{
    if derivation.scripts.len() != program.funs.len() {
        return false;
    }
    match check_derivation(alloc, program, derivation) {
        Ok(()) => true,
        Err(_) => false,
    }
}

/// The bytes of a text, each as a character.
pub(crate) fn push_bytes(text: &mut String, bytes: &[u8]) -> Result<(), Fail> {
    for k in 0..bytes.len() {
        text.push(bytes[k] as char)?;
    }
    Ok(())
}

/// A name as the function spells it that ends at or behind the place, or its number.
fn push_name(
    alloc: Global,
    program: &Program,
    place: Place,
    name: u32,
    text: &mut String,
) -> Result<(), Fail> {
    for k in 0..program.funs.len() {
        let fun = program.funs.get(k).ok_or("a function is missing")?;
        let end = fun.body.place;
        if (place.line, place.col) <= (end.line, end.col) {
            if let Some(spelled) = fun.spelling.get(name as usize) {
                if spelled.len() > 0 {
                    return push_bytes(text, spelled.as_slice());
                }
            }
            break;
        }
    }
    text.push_str(format!(in alloc; "%{name}")?.as_str())?;
    Ok(())
}

/// A type in words; those that no row has are a mark.
fn push_type(program: &Program, ty: &Ty, text: &mut String) -> Result<(), Fail> {
    match ty {
        Ty::Int => text.push_str("int")?,
        Ty::Unknown => text.push_str("unknown")?,
        Ty::Dynamic => text.push_str("dynamic")?,
        Ty::Locked => text.push_str("locked")?,
        Ty::Named(number) => {
            let variety = program
                .varieties
                .get(*number as usize)
                .ok_or("a type is missing")?;
            push_bytes(text, variety.name.as_slice())?;
        }
        _ => text.push_str("?")?,
    }
    Ok(())
}

/// The line of a refusal.
fn refused(alloc: Global, program: &Program, place: Place, atom: &Atom) -> Result<String, Fail> {
    let mut text = format!(in alloc; "refused: {}:{}: no permission: ", place.line, place.col)?;
    match atom {
        Atom::Has { name, ty } => {
            push_name(alloc, program, place, *name, &mut text)?;
            text.push_str(" @ ")?;
            push_type(program, ty, &mut text)?;
        }
        Atom::Same { left, right } => {
            push_name(alloc, program, place, *left, &mut text)?;
            text.push_str(" = ")?;
            push_name(alloc, program, place, *right, &mut text)?;
        }
    }
    Ok(text)
}

/// What is answered to a program that is declared.
fn elaborated(alloc: Global, program: &Program) -> Result<String, Fail>
    requires scoped { Scoped (plain_program program.now) }
    requires declared { Declared (plain_program program.now) }
{
    match elaborate(alloc, program) {
        Ok(derivation) => {
            if derives(alloc, program, &derivation) {
                return Ok(String::from_str(alloc, "accepted")?);
            }
            Ok(String::from_str(alloc, "no derivation")?)
        }
        Err(ElabFault::NoPermission { place, atom }) => refused(alloc, program, place, &atom),
        Err(ElabFault::Memory) => Ok(String::from_str(alloc, "memory")?),
    }
}

/// What is answered to a source: that it is accepted, where the check takes the derivation that is found, or its refusal.
pub(crate) fn answer(alloc: Global, source: &str) -> Result<String, Fail> {
    let Some(program) = program(alloc, source.as_bytes()) else {
        return Ok(String::from_str(alloc, "not read")?);
    };
    if !is_declared(alloc, &program) {
        return Ok(String::from_str(alloc, "not declared")?);
    }
    elaborated(alloc, &program)
}

/// The program of a source with the derivation that is found, if there is one.
pub(crate) fn derivation_of(alloc: Global, source: &str) -> Option<(Program, Derivation)> {
    let Some(program) = program(alloc, source.as_bytes()) else {
        return None;
    };
    if !is_declared(alloc, &program) {
        return None;
    }
    match elaborate(alloc, &program) {
        Ok(derivation) => Some((program, derivation)),
        Err(_) => None,
    }
}
