//! From the bytes of a source to its program, where it is of the first form, or to why it is refused. Each step is one call
//! of another crate; a step's refusals are those of that call, in the order of the steps.
ghost use Rattle.std.specs.Prelude.{◌≡◌, ◌<◌, ◌^◌, ◌-◌, length, MatchOption};
ghost use Rattle.mz_tree.specs.Code.{Body as PlainBody};
ghost use Rattle.mz_tree.specs.View.{plain_program, plain_body};
ghost use Rattle.mz_scope.specs.Trees.{tree_of};
ghost use Rattle.mz_scope.specs.Flattening.{Flattens};
ghost use Rattle.mz_tree.specs.Scoped.{Scoped};
ghost use Rattle.mz_decl.specs.View.{plain_decls};
ghost use Rattle.mz_cli.specs.Mains.{IsMain};
ghost use Rattle.mz_cli.specs.Refusals.{HasTokens, HasTree, HasFault, RunFault};
ghost use Rattle.mz_cli.specs.Answered.{GivesOr, AreExclusive, Declares, IsDeclaredTree, IsRead};

use crate::form::is_first_form;
use crate::refusal::{Refusal, Stop};
use mz_decl::{DeclFault, Decls, well_formed};
use mz_modes::{ModeFault, modes};
use mz_parse::{Surface, SyntaxFault, parse};
use mz_scope::{ScopeFault, resolve};
use mz_token::{LexFault, Tokens, tokens};
use mz_tree::{Body, Program};
use std::alloc::Global;

// The bytes' tokens.
fn tokens_of(alloc: Global, bytes: &[u8]) -> Result<Tokens, Stop>
    requires { length bytes.now < 2 ^ 32 - 1 }
    ensures { GivesOr (HasFault bytes.now) (λ found. HasTokens bytes.now found) result }
{
    match tokens(alloc, bytes) {
        Ok(found) => Ok(found),
        Err(LexFault::Byte(place)) => Err(Stop::Refused(Refusal::BadByte(place))),
        Err(LexFault::Number(place)) => Err(Stop::Refused(Refusal::BadNumber(place))),
        Err(LexFault::NameTooLong(place)) => Err(Stop::Refused(Refusal::NameTooLong(place))),
        Err(LexFault::Memory) => Err(Stop::Memory),
    }
}

// The tree of the bytes' tokens.
fn surface_of(alloc: Global, bytes: &[u8]) -> Result<Surface, Stop>
    requires { length bytes.now < 2 ^ 32 - 1 }
    ensures { GivesOr (HasFault bytes.now) (λ surface. HasTree bytes.now surface) result }
{
    let found = match tokens_of(alloc, bytes) {
        Ok(found) => found,
        Err(stop) => return Err(stop),
    };
    match parse(alloc, &found) {
        Ok(surface) => Ok(surface),
        Err(SyntaxFault::Unexpected(place)) => Err(Stop::Refused(Refusal::Unexpected(place))),
        Err(SyntaxFault::TooDeep(place)) => Err(Stop::Refused(Refusal::TooDeep(place))),
        Err(SyntaxFault::Memory) => Err(Stop::Memory),
    }
}

// The tree's program.
fn program_of(alloc: Global, surface: &Surface) -> Result<Program, Stop>
    requires { HasTree surface.now.text surface.now }
    ensures { GivesOr (HasFault surface.now.text) (λ program. Flattens (tree_of surface.now) (plain_program program)) result }
{
    match resolve(alloc, surface) {
        Ok(program) => Ok(program),
        Err(ScopeFault::Unknown(place)) => Err(Stop::Refused(Refusal::UnknownName(place))),
        Err(ScopeFault::Twice(place)) => Err(Stop::Refused(Refusal::DeclaredTwice(place))),
        Err(ScopeFault::Shape(place)) => Err(Stop::Refused(Refusal::WrongShape(place))),
        Err(ScopeFault::NotExhaustive(place)) => Err(Stop::Refused(Refusal::CasesMissing(place))),
        Err(ScopeFault::TooMany(place)) => Err(Stop::Refused(Refusal::TooMany(place))),
        Err(ScopeFault::NoMain) => Err(Stop::Refused(Refusal::NoMain)),
        Err(ScopeFault::Memory) => Err(Stop::Memory),
    }
}

// Whether each `adopts` names a mutable data type.
fn are_exclusive(alloc: Global, decls: &Decls) -> Result<(), Stop>
    ensures { AreExclusive (plain_decls decls.now) result }
{
    match modes(alloc, decls) {
        Ok(_) => Ok(()),
        Err(ModeFault::NotExclusive(place)) => Err(Stop::Refused(Refusal::NotExclusive(place))),
        Err(ModeFault::Memory) => Err(Stop::Memory),
    }
}

// Whether each `adopts` of the program stands on what is mutable and names what is mutable.
fn declare(alloc: Global, program: &Program) -> Result<(), Stop>
    requires { Scoped (plain_program program.now) }
    ensures { Declares (plain_program program.now) result }
{
    match well_formed(alloc, program) {
        Ok(decls) => are_exclusive(alloc, &decls),
        Err(DeclFault::ImmutableAdopter(place)) => {
            Err(Stop::Refused(Refusal::ImmutableAdopter(place)))
        }
        Err(DeclFault::Memory) => Err(Stop::Memory),
    }
}

/// The tree and the program of a text of fewer than 2^32-1 bytes, where that is declared.
pub(crate) fn read_declared(alloc: Global, bytes: &[u8]) -> Result<(Surface, Program), Stop>
    requires { length bytes.now < 2 ^ 32 - 1 }
    ensures { GivesOr (HasFault bytes.now) (λ found. IsDeclaredTree bytes.now found.0 (plain_program found.1)) result }
{
    let surface = match surface_of(alloc, bytes) {
        Ok(surface) => surface,
        Err(stop) => return Err(stop),
    };
    let program = match program_of(alloc, &surface) {
        Ok(program) => program,
        Err(stop) => return Err(stop),
    };
    match declare(alloc, &program) {
        Ok(()) => Ok((surface, program)),
        Err(stop) => Err(stop),
    }
}

/// The program of a text of the first form, which has fewer than 2^32-1 bytes.
pub fn read_program(alloc: Global, bytes: &[u8]) -> Result<Program, Stop>
    requires { length bytes.now < 2 ^ 32 - 1 }
    ensures { GivesOr (RunFault bytes.now) (λ program. IsRead bytes.now (plain_program program)) result }
{
    match read_declared(alloc, bytes) {
        Ok((surface, program)) => {
            if is_first_form(&surface, &program) {
                Ok(program)
            } else {
                Err(Stop::Refused(Refusal::Unbuilt))
            }
        }
        Err(stop) => Err(stop),
    }
}

/// The body of the program's function `main`, the first of that name.
pub fn main_of(program: &Program) -> Option<&Body>
    ensures { MatchOption result
        ((body : PlainBody) → IsMain (plain_program program.now) body → ⊥)
        (λ body. IsMain (plain_program program.now) (plain_body body.now)) }
{
    for function in program.funs.as_slice() {
        if function.name.as_slice() == b"main".as_slice() {
            return Some(&function.body);
        }
    }
    None
}
