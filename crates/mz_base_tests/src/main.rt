//! A program that copies standard input to standard output, through the adapters of `mz_base`: a first piece by one read and
//! one write, and the rest to its end. Its input and what it must write stand beside `src/`, so that running it tests that
//! the adapters carry what the program reads and writes.
#![tactic(auto)]

use mz_base::{
    Failed, InputFault, OutputFault, Sink, Source, StdSink, StdSource, read_all, write_all,
};
use std::process::ExitCode;
use thiserror::Error;

/// How many bytes the first piece may have.
const PIECE: usize = 16;

/// How many bytes may follow it.
const MOST: usize = 4096;

/// Why the input wasn't copied.
#[derive(Clone, Copy, Debug, PartialEq, Eq, Error)]
enum CopyFault {
    #[error(transparent)]
    Piece(#[from] Failed),
    #[error(transparent)]
    Input(#[from] InputFault),
    #[error(transparent)]
    Output(#[from] OutputFault),
}

fn copy(rt: &HostRuntime) -> Result<(), CopyFault> {
    let mut source = StdSource::new(rt);
    let mut sink = StdSink::new(rt);
    let mut room = [0u8; PIECE];
    let count = source.read(&mut room)?;
    let taken = sink.write(&room[..count])?;
    write_all(&mut sink, &room[taken..count])?;
    let rest = read_all(rt.alloc(), &mut source, MOST)?;
    write_all(&mut sink, &rest)?;
    Ok(())
}

fn main(rt: HostRuntime) -> ExitCode {
    match copy(&rt) {
        Ok(()) => ExitCode::from(0u8),
        Err(fault) => {
            // Where standard error takes nothing either, the status alone tells it.
            let _ = eprintln!(rt; "{fault}");
            ExitCode::from(1u8)
        }
    }
}
