//! Runs of the programs of the tables, and what is seen of a configuration.
use mz_named::{NamedConfig, NamedTurn, next_access, step_named};
use mz_tree::Program;
use std::alloc::Global;
use std::test::Fail;

/// The configuration in which the program's last function begins.
pub(crate) fn begin(alloc: Global, program: &Program) -> Result<NamedConfig, Fail> {
    let main = program
        .funs
        .as_slice()
        .last()
        .ok_or("a program has no function")?;
    Ok(NamedConfig::beginning(alloc, main)?)
}

/// One step of a thread.
pub(crate) fn step(
    alloc: Global,
    program: &Program,
    config: &mut NamedConfig,
    thread: u32,
) -> Result<NamedTurn, Fail> {
    if thread < config.threads() && config.threads() < u32::MAX && config.blocks() < u32::MAX {
        return Ok(step_named(alloc, program, config, thread)?);
    }
    Err("there is no such thread")?
}

/// What the next command of each thread accesses, in words.
pub(crate) fn accessed(
    alloc: Global,
    program: &Program,
    config: &NamedConfig,
) -> Result<String, Fail> {
    let mut told = String::new(alloc);
    for thread in 0..config.threads() {
        let access = next_access(alloc, program, config, thread)?;
        let reads = access.reads.as_slice();
        let writes = access.writes.as_slice();
        if thread > 0 {
            told.push_str(", ")?;
        }
        told.push_str(&format!(in alloc; "{thread} reads {reads:?} writes {writes:?}")?)?;
    }
    Ok(told)
}

/// What was printed, in words.
pub(crate) fn printed(alloc: Global, config: &NamedConfig) -> Result<String, Fail> {
    let prints = config.prints();
    Ok(format!(in alloc; "{prints:?}")?)
}

/// All that is seen of a configuration, in words.
fn seen(alloc: Global, program: &Program, config: &NamedConfig) -> Result<String, Fail> {
    let prints = printed(alloc, config)?;
    let accesses = accessed(alloc, program, config)?;
    Ok(format!(in alloc; "{}, {} blocks, {}", prints, config.blocks(), accesses)?)
}

/// The letter that stands for an answer in the tables.
fn letter(answer: NamedTurn) -> u8 {
    match answer {
        NamedTurn::Stepped => b'S',
        NamedTurn::Ended => b'E',
        NamedTurn::TakeFailed => b'T',
        NamedTurn::Arith => b'A',
        NamedTurn::Waits => b'W',
        NamedTurn::Wrong => b'X',
    }
}

/// Whether the thread's next step answers `again` and changes nothing that is seen.
fn stays(
    alloc: Global,
    program: &Program,
    config: &mut NamedConfig,
    thread: u32,
    again: NamedTurn,
) -> Result<bool, Fail> {
    let before = seen(alloc, program, config)?;
    let answer = step(alloc, program, config, thread)?;
    let after = seen(alloc, program, config)?;
    Ok(answer == again && before == after)
}

/// Whether a step that isn't the last one of its kind is followed by the right one: a thread that has stopped has ended, and an end,
/// a wait and what is wrong have changed nothing that was seen before them and come again.
fn goes_on(
    alloc: Global,
    program: &Program,
    config: &mut NamedConfig,
    thread: u32,
    before: &str,
    answer: NamedTurn,
) -> Result<bool, Fail> {
    match answer {
        NamedTurn::Stepped => Ok(true),
        NamedTurn::TakeFailed => stays(alloc, program, config, thread, NamedTurn::Ended),
        NamedTurn::Arith => stays(alloc, program, config, thread, NamedTurn::Ended),
        _ => {
            let after = seen(alloc, program, config)?;
            Ok(before == after.as_str() && stays(alloc, program, config, thread, answer)?)
        }
    }
}

/// Whether a thread's steps are answered by these letters, in order.
fn steps_so(
    alloc: Global,
    program: &Program,
    config: &mut NamedConfig,
    thread: u32,
    letters: &[u8],
) -> Result<bool, Fail> {
    for at in 0..letters.len() {
        let before = seen(alloc, program, config)?;
        let answer = step(alloc, program, config, thread)?;
        let right = letter(answer) == letters[at];
        if !right || !goes_on(alloc, program, config, thread, &before, answer)? {
            return Ok(false);
        }
    }
    Ok(true)
}

/// Whether the turns are answered so. Each is a thread's number, of one digit, with the letters of its answers.
pub(crate) fn runs_so(
    alloc: Global,
    program: &Program,
    config: &mut NamedConfig,
    turns: &str,
) -> Result<bool, Fail> {
    for turn in turns.split_whitespace() {
        let (digit, letters) = turn.as_bytes().split_first().ok_or("a turn is empty")?;
        let thread = u32::from(digit.wrapping_sub(b'0'));
        if !steps_so(alloc, program, config, thread, letters)? {
            return Ok(false);
        }
    }
    Ok(true)
}
