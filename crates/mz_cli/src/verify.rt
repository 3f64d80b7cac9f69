//! Whether the script of an input is the text of a derivation of the program that its source is the text of. Each step is one
//! call of another crate.
ghost use Rattle.std.specs.Prelude.{◌≡◌, ◌<◌, ◌≤◌, ◌^◌, ◌-◌, length};
ghost use Rattle.mz_tree.specs.View.{plain_program};
ghost use Rattle.mz_tree.specs.Scoped.{Scoped};
ghost use Rattle.mz_modes.specs.Adopted.{Declared};
ghost use Rattle.mz_deriv.specs.View.{plain_derivation};
ghost use Rattle.mz_cli.specs.Inputs.{input_limit};
ghost use Rattle.mz_cli.specs.Verifying.{Verifies};
ghost use Rattle.mz_cli.specs.Answered.{Judges, JudgesText};

use crate::first::read_declared;
use crate::input::script_start;
use crate::refusal::{Refusal, Stop};
use crate::top::SOURCE_LIMIT;
use mz_deriv::{DerivFault, Derivation, check_derivation};
use mz_script::{ScriptFault, read_script};
use mz_tree::Program;
use std::alloc::Global;

// Whether the scripts, one for each function, are a derivation.
fn judge(alloc: Global, program: &Program, derivation: &Derivation) -> Result<(), Stop>
    requires scoped { Scoped (plain_program program.now) }
    requires declared { Declared (plain_program program.now) }
    requires one_each { length derivation.now.scripts ≡ length program.now.funs }
    ensures { Judges (plain_program program.now) (plain_derivation derivation.now) result }
{
    match check_derivation(alloc, program, derivation) {
        Ok(()) => Ok(()),
        Err(DerivFault::BadStep { place, step }) => {
            Err(Stop::Refused(Refusal::BadStep(place, step)))
        }
        Err(DerivFault::BadCommand { place }) => Err(Stop::Refused(Refusal::BadCommand(place))),
        Err(DerivFault::BadJoin { place }) => Err(Stop::Refused(Refusal::BadJoin(place))),
        Err(DerivFault::Memory) => Err(Stop::Memory),
    }
}

// Whether the bytes are the text of a derivation.
fn judge_text(alloc: Global, program: &Program, bytes: &[u8]) -> Result<(), Stop>
    requires scoped { Scoped (plain_program program.now) }
    requires declared { Declared (plain_program program.now) }
    requires short { length bytes.now < 2 ^ 32 - 1 }
    ensures { JudgesText (plain_program program.now) bytes.now result }
{
    match read_script(alloc, program, bytes) {
        Ok(derivation) => judge(alloc, program, &derivation),
        Err(ScriptFault::Line(number)) => Err(Stop::Refused(Refusal::WrongLine(number))),
        Err(ScriptFault::Memory) => Err(Stop::Memory),
    }
}

/// Whether the script of an input is the text of a derivation of its source's program; or why the input is refused.
pub(crate) fn verify(alloc: Global, bytes: &[u8]) -> Result<(), Stop>
    requires { length bytes.now ≤ input_limit }
    ensures { Verifies bytes.now result }
{
    let start = script_start(bytes);
    let source = &bytes[..start];
    if source.len() > SOURCE_LIMIT {
        return Err(Stop::Refused(Refusal::TooLong));
    }
    match read_declared(alloc, source) {
        Ok((_, program)) => judge_text(alloc, &program, &bytes[start..]),
        Err(stop) => Err(stop),
    }
}
