//! What the program does, from the words and the bytes to the text: it reads its input to the end, reads the text as a
//! program, runs it or checks the script that follows it, makes the whole text of its answer, and only then writes. It holds no
//! logic of its own but the order of the steps.
ghost use Rattle.std.specs.Prelude.{◌≡◌, ◌⊎◌, ◌≤◌, ◌↔◌, length, IfOk, IsTrue, string_bytes, codes};
ghost use Rattle.mz_base.specs.Causes.{Rose};
ghost use Rattle.mz_base.specs.Told.{Gains, GainsFront};
ghost use Rattle.mz_tree.specs.View.{plain_program};
ghost use Rattle.mz_cli.specs.declared.words.Mode.{Mode};
ghost use Rattle.mz_cli.specs.Words.{AreTaken};
ghost use Rattle.mz_cli.specs.Inputs.{input_limit};
ghost use Rattle.mz_cli.specs.Outcome.{line, Answers, Outcome};
ghost use Rattle.mz_cli.specs.Refusals.{source_limit, Causes, refusal_text};
ghost use Rattle.mz_cli.specs.Answered.{limit_of, IsReady, RunAnswers};

use crate::Status;
use crate::first::read_program;
use crate::input::INPUT_LIMIT;
use crate::refusal::{Refusal, Stop};
use crate::run::{Ending, run_program};
use crate::text::{ACCEPTED, USAGE, printed, refused, stopped};
use crate::verify::verify;
use crate::words::{Mode, mode_of};
use mz_base::{Gate, InputFault, Sink, Source, read_all, write_all};
use mz_tree::{Memory, Program};
use std::alloc::Global;

/// The most bytes of a source.
pub(crate) const SOURCE_LIMIT: usize = 1_048_576;

// What is answered, and the whole text that is written with it.
#[derive(Drop)]
struct Answer {
    status: Status,
    text: String,
}

// Runs the program.
fn run_main(alloc: Global, program: &Program) -> Result<Answer, Memory>
    requires { IsReady (plain_program program.now) }
    ensures { IfOk result (λ answer. RunAnswers (plain_program program.now) answer.status (string_bytes answer.text)) }
{
    let run = run_program(alloc, program)?;
    let mut text = printed(alloc, run.config.prints())?;
    match run.ending {
        Ending::Ended => Ok(Answer {
            status: Status::Done,
            text,
        }),
        Ending::Stopped(place) => {
            let line = stopped(alloc, place)?;
            text.push_str(&line)?;
            Ok(Answer {
                status: Status::Stopped,
                text,
            })
        }
    }
}

// A refusal and its line.
fn refuse(alloc: Global, refusal: Refusal) -> Result<Answer, Memory>
    ensures { IfOk result (λ answer. (answer.status ≡ Status.Refused) × (string_bytes answer.text ≡ line (refusal_text refusal))) }
{
    let text = refused(alloc, refusal)?;
    Ok(Answer {
        status: Status::Refused,
        text,
    })
}

// What the bytes of a source that isn't too long come to where it is run.
fn run_source(alloc: Global, bytes: &[u8]) -> Result<Answer, Memory>
    requires { length bytes.now ≤ source_limit }
    ensures { IfOk result (λ answer. Answers Mode.Sched bytes.now answer.status (string_bytes answer.text)) }
{
    match read_program(alloc, bytes) {
        Ok(program) => run_main(alloc, &program),
        Err(Stop::Refused(refusal)) => refuse(alloc, refusal),
        Err(Stop::Memory) => Err(Memory),
    }
}

// What the bytes of an input that isn't too long come to where its script is checked.
fn verify_input(alloc: Global, bytes: &[u8]) -> Result<Answer, Memory>
    requires { length bytes.now ≤ input_limit }
    ensures { IfOk result (λ answer. Answers Mode.Verify bytes.now answer.status (string_bytes answer.text)) }
{
    match verify(alloc, bytes) {
        Ok(()) => Ok(Answer {
            status: Status::Done,
            text: String::from_str(alloc, ACCEPTED)?,
        }),
        Err(Stop::Refused(refusal)) => refuse(alloc, refusal),
        Err(Stop::Memory) => Err(Memory),
    }
}

// The most bytes that are read in a mode.
fn limit_of(mode: Mode) -> usize
    ensures { result ≡ limit_of mode }
{
    match mode {
        Mode::Sched => SOURCE_LIMIT,
        Mode::Verify => INPUT_LIMIT,
    }
}

// What the bytes of an input that isn't too long come to.
fn answer_to(alloc: Global, mode: Mode, bytes: &[u8]) -> Result<Answer, Memory>
    requires { length bytes.now ≤ limit_of mode }
    ensures { IfOk result (λ answer. Answers mode bytes.now answer.status (string_bytes answer.text)) }
{
    match mode {
        Mode::Sched => run_source(alloc, bytes),
        Mode::Verify => verify_input(alloc, bytes),
    }
}

// Writes a text, and answers the status that was to come.
fn write_out<K: Sink>(sink: &mut K, text: &str, status: Status) -> Status
    requires { status ≡ Status.WriteFault → ⊥ }
    ensures answer { ((result ≡ status) × Gains (K.written sink.old) (K.written sink.new) text.now)
        ⊎ ((result ≡ Status.WriteFault)
        × (Rose (K.faults sink.old) (K.faults sink.new) ⊎ Rose (K.stalls sink.old) (K.stalls sink.new))
        × GainsFront (K.written sink.old) (K.written sink.new) text.now) }
    ensures faults { K.faults sink.old ≤ K.faults sink.new }
    ensures stalls { K.stalls sink.old ≤ K.stalls sink.new }
{
    match write_all(sink, text.as_bytes()) {
        Ok(()) => status,
        Err(_) => Status::WriteFault,
    }
}

/// All that the program does but in the mode `run`, over any source and sink.
///
/// The words are taken where they are the program's name and `sched` or `verify`. Then the source is read to its end, and as
/// a text of the language.
///
/// By `sched` a text of the first form is run, and its prints are written, each as a line. Each program that is run has a
/// derivation by the permission rules.
///
/// By `verify` the input has two parts: a source, and from the first line that is exactly `%derivation 1` a script; without
/// such a line the script is empty. Where the script is the text of a derivation of the source's program, `accepted` is
/// written.
///
/// The answers:
///
/// - `Done`: the run has ended, or the script is accepted.
/// - `Stopped`: the run stopped at an arithmetic command, and the line that tells its place follows the prints.
/// - `Refused`: the text is refused, and the line of the first cause that holds is written. The order is: more than
///   1,048,576 bytes, a byte, number or name that is no token's, a token that can't stand where it does or a bracket too
///   many, a name or a shape, an `adopts` on what is immutable, an `adopts` of what is immutable; then by `sched` a text that
///   isn't of the first form, and by `verify` the first line of the script that can't stand where it does, and the first view
///   step, command or join that isn't one of the rules. By `verify` a whole input of more than 67,108,864 bytes is too long, too.
/// - `Usage`: the words aren't taken; the usage line is written, and nothing is read.
/// - `ReadFault`: the source failed, and nothing was written.
/// - `WriteFault`: the sink failed or took nothing; a front of the text that was to come was written.
/// - `Memory`: want of memory; nothing was written.
///
/// No count of the source or the sink falls.
pub fn mezzo_plain<S: Source, K: Sink>(
    alloc: Global,
    words: &[String],
    source: &mut S,
    sink: &mut K,
) -> Status
    ensures outcome { Outcome words.now
        (record {
          left = S.left source.old;
          source_faults = S.faults source.old;
          source_faults_after = S.faults source.new;
          written = K.written sink.old;
          written_after = K.written sink.new;
          sink_faults = K.faults sink.old;
          sink_faults_after = K.faults sink.new;
          stalls = K.stalls sink.old;
          stalls_after = K.stalls sink.new;
        }) result }
    ensures unread { (AreTaken words.now → ⊥) → source.new ≡ source.old }
    ensures read_faults { S.faults source.old ≤ S.faults source.new }
    ensures write_faults { K.faults sink.old ≤ K.faults sink.new }
    ensures stalls { K.stalls sink.old ≤ K.stalls sink.new }
{
    let Some(mode) = mode_of(words) else {
        return write_out(sink, USAGE, Status::Usage);
    };
    match read_all(alloc, source, limit_of(mode)) {
        Ok(bytes) => match answer_to(alloc, mode, &bytes) {
            Ok(answer) => write_out(sink, &answer.text, answer.status),
            Err(Memory) => Status::Memory,
        },
        Err(InputFault::ReadFault) => Status::ReadFault,
        Err(InputFault::TooLong) => match refuse(alloc, Refusal::TooLong) {
            Ok(answer) => write_out(sink, &answer.text, answer.status),
            Err(Memory) => Status::Memory,
        },
        Err(InputFault::Memory) => Status::Memory,
    }
}

/// All that the program does, over any source, sink and gate: as yet just what [`mezzo_plain`] does, and the gate isn't
/// entered.
pub fn mezzo<S: Source, K: Sink, G: Gate>(
    alloc: Global,
    words: &[String],
    source: &mut S,
    sink: &mut K,
    _gate: &G,
) -> Status
    ensures outcome { Outcome words.now
        (record {
          left = S.left source.old;
          source_faults = S.faults source.old;
          source_faults_after = S.faults source.new;
          written = K.written sink.old;
          written_after = K.written sink.new;
          sink_faults = K.faults sink.old;
          sink_faults_after = K.faults sink.new;
          stalls = K.stalls sink.old;
          stalls_after = K.stalls sink.new;
        }) result }
    ensures unread { (AreTaken words.now → ⊥) → source.new ≡ source.old }
    ensures read_faults { S.faults source.old ≤ S.faults source.new }
    ensures write_faults { K.faults sink.old ≤ K.faults sink.new }
    ensures stalls { K.stalls sink.old ≤ K.stalls sink.new }
{
    mezzo_plain(alloc, words, source, sink)
}
