//! The code of a source that has a derivation, and its report.
ghost use Rattle.std.specs.Prelude.{IfSome, IsTrue};
ghost use Rattle.mz_tree.specs.Scoped.{Scoped};
ghost use Rattle.mz_tree.specs.View.{plain_program};
ghost use Rattle.mz_modes.specs.Adopted.{Declared};
ghost use Rattle.mz_words.specs.Limits.{AreWithinLimits};
ghost use Rattle.mz_words.specs.Tame.{Tame};
ghost use Rattle.mz_lower.specs.Layout.{code_of};

use mz_decl::well_formed;
use mz_deriv::{Derivation, check_derivation};
use mz_lower::lower;
use mz_modes::modes;
use mz_parse::parse;
use mz_sched::run_scheduled;
use mz_scope::resolve;
use mz_script::read_script;
use mz_token::tokens;
use mz_tree::Program;
use mz_words::{Code, Options, Report};
use std::alloc::Global;

/// The program of a source of at most 1,000,000 bytes, if it has one and memory suffices.
fn program(alloc: Global, source: &[u8]) -> Option<Program>
    ensures { IfSome result (λ p. Scoped (plain_program p)) }
{
    if source.len() > 1_000_000 {
        return None;
    }
    let Ok(found) = tokens(alloc, source) else {
        return None;
    };
    let Ok(surface) = parse(alloc, &found) else {
        return None;
    };
    match resolve(alloc, &surface) {
        Ok(program) => Some(program),
        Err(_) => None,
    }
}

/// Whether the program is declared. Want of memory is no.
fn is_declared(alloc: Global, program: &Program) -> bool
    requires { Scoped (plain_program program.now) }
    ensures { IsTrue result → Declared (plain_program program.now) }
{
    match well_formed(alloc, program) {
        Ok(decls) => match modes(alloc, &decls) {
            Ok(_) => true,
            Err(_) => false,
        },
        Err(_) => false,
    }
}

/// Whether it is a derivation of the program. Want of memory is no.
fn is_derivation(alloc: Global, program: &Program, derivation: &Derivation) -> bool
    requires { Scoped (plain_program program.now) }
    ensures { IsTrue result → Tame (code_of (plain_program program.now)) }
{
    if !is_declared(alloc, program) || derivation.scripts.len() != program.funs.len() {
        return false;
    }
    match check_derivation(alloc, program, derivation) {
        Ok(()) => true,
        Err(_) => false,
    }
}

/// Whether a script of at most 1,000,000 bytes is the text of a derivation of the program. Want of memory is no.
fn is_derived(alloc: Global, program: &Program, script: &[u8]) -> bool
    requires { Scoped (plain_program program.now) }
    ensures { IsTrue result → Tame (code_of (plain_program program.now)) }
{
    if script.len() > 1_000_000 {
        return false;
    }
    match read_script(alloc, program, script) {
        Ok(derivation) => is_derivation(alloc, program, &derivation),
        Err(_) => false,
    }
}

/// The code of a source, of whose program the script is a derivation.
fn tame_code(alloc: Global, source: &[u8], script: &[u8]) -> Option<Code>
    ensures { IfSome result (λ code. Tame code) }
{
    let Some(program) = program(alloc, source) else {
        return None;
    };
    if !is_derived(alloc, &program, script) {
        return None;
    }
    match lower(alloc, &program) {
        Ok(code) => Some(code),
        Err(_) => None,
    }
}

/// Whether each option is within its limits.
fn are_lawful(options: &Options) -> bool
    ensures { IsTrue result → AreWithinLimits options.now }
{
    1024 <= options.heap
        && options.heap <= 16777216
        && 1 <= options.steps
        && options.steps <= 1000000
        && 1 <= options.tries
        && options.tries <= 4294967295
        && 1 <= options.workers
        && options.workers <= 16
        && 1 <= options.quantum
        && options.quantum <= 1000000
}

/// The report of a source, or none where the source, the script or an option is refused.
pub(crate) fn report(
    alloc: Global,
    source: &[u8],
    script: &[u8],
    options: &Options,
) -> Option<Report> {
    if !are_lawful(options) {
        return None;
    }
    let Some(code) = tame_code(alloc, source, script) else {
        return None;
    };
    match run_scheduled(alloc, &code, options) {
        Ok(report) => Some(report),
        Err(_) => None,
    }
}
