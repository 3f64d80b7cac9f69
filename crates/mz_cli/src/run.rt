//! The run of a program of the first form by the named machine: steps of thread 0, from the opening to its end or its stop.
ghost use Rattle.std.specs.Prelude.{IfOk};
ghost use Rattle.mz_tree.specs.View.{plain_program, plain_body};
ghost use Rattle.mz_named.specs.Safety.{IsOpening};
ghost use Rattle.mz_named.specs.View.{plain_config};
ghost use Rattle.mz_cli.specs.Mains.{IsMain};
ghost use Rattle.mz_cli.specs.Answered.{IsReady, RunsTo};

use crate::first::main_of;
use mz_named::{NamedConfig, NamedTurn, step_named};
use mz_tree::{Body, Memory, Place, Program};
use std::alloc::Global;

/// What a run came to.
#[derive(Clone, Copy, Debug, PartialEq, Eq)]
pub enum Ending {
    /// The thread has ended.
    Ended,
    /// The arithmetic command at this place has no number as its result.
    Stopped(Place),
}

/// What a run came to, and the configuration that it left, which has what was printed.
#[derive(Drop)]
pub struct Run {
    pub ending: Ending,
    pub config: NamedConfig,
}

// What thread 0 comes to from the opening: it makes one step for each command of its body, and one more to end.
fn ending_of(
    alloc: Global,
    program: &Program,
    body: &Body,
    config: &mut NamedConfig,
) -> Result<Ending, Memory>
    requires ready { IsReady (plain_program program.now) }
    requires main { IsMain (plain_program program.now) (plain_body body.now) }
    requires opens { IsOpening (plain_program program.now) (plain_config config.old) }
    ensures { IfOk result (λ ending. RunsTo (plain_program program.now) ending (plain_config config.new).prints) }
{
    for command in body.commands.as_slice() {
        match step_named(alloc, program, config, 0)? {
            NamedTurn::Stepped => {}
            NamedTurn::Arith => return Ok(Ending::Stopped(command.place)),
            // the program is safe, and no command takes a block back or acquires a lock
            _ => unreachable!(),
        }
    }
    match step_named(alloc, program, config, 0)? {
        NamedTurn::Ended => Ok(Ending::Ended),
        // there is no next command
        _ => unreachable!(),
    }
}

/// Runs a program of the first form by the named machine, from its opening: what thread 0 comes to, and what was printed.
///
/// A run fails only where there is no memory for what it keeps.
pub fn run_program(alloc: Global, program: &Program) -> Result<Run, Memory>
    requires { IsReady (plain_program program.now) }
    ensures { IfOk result (λ run. RunsTo (plain_program program.now) run.ending (plain_config run.config).prints) }
{
    let Some(body) = main_of(program) else {
        unreachable!()
    };
    let mut config = NamedConfig::opening(alloc, program)?;
    let ending = ending_of(alloc, program, body, &mut config)?;
    Ok(Run { ending, config })
}
