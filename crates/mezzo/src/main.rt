//! The program `mezzo`: it makes the standard source and sink and the open gate, calls [`mz_cli::mezzo`], and ends with
//! the number of its status. What that call does is said by its contract; only the words are read here.
#![tactic(auto)]

use mz_base::{OpenGate, StdSink, StdSource};
use mz_cli::{Status, mezzo};
use mz_tree::Memory;
use std::env;
use std::io::ErrorKind;
use std::process::ExitCode;

/// The words of the command line, the program's name first. Where one isn't UTF-8, there are none: no such words are taken,
/// and the call then says so.
fn command_line(rt: &HostRuntime) -> Result<Vec<String>, Memory> {
    match env::args(rt) {
        Ok(words) => Ok(words.collect::<Vec<String>>(rt.alloc())?),
        Err(error) => {
            if error.kind() == ErrorKind::OutOfMemory {
                Err(Memory)
            } else {
                Ok(Vec::new(rt.alloc()))
            }
        }
    }
}

fn run(rt: &HostRuntime) -> Status {
    let Ok(words) = command_line(rt) else {
        return Status::Memory;
    };
    let mut source = StdSource::new(rt);
    let mut sink = StdSink::new(rt);
    mezzo(rt.alloc(), &words, &mut source, &mut sink, &OpenGate::new())
}

fn main(rt: HostRuntime) -> ExitCode {
    ExitCode::from(run(&rt).number())
}
