//! A program for `bench/run`: it reads a source of at most 1,048,576 bytes, cuts it into tokens and parses them, and writes
//! how many declarations it has.
#![tactic(auto)]

use mz_base::{StdSource, read_all};
use mz_parse::parse;
use mz_token::tokens;
use std::process::ExitCode;

// How many declarations the source has; None where it isn't read, has no tokens or no tree.
fn declarations(rt: &HostRuntime) -> Option<usize> {
    let alloc = rt.alloc();
    let mut source = StdSource::new(rt);
    let Ok(bytes) = read_all(alloc, &mut source, 1_048_576) else {
        return None;
    };
    let Ok(found) = tokens(alloc, &bytes) else {
        return None;
    };
    match parse(alloc, &found) {
        Ok(surface) => Some(surface.declarations.len()),
        Err(_) => None,
    }
}

fn main(rt: HostRuntime) -> ExitCode {
    let written = match declarations(&rt) {
        Some(count) => println!(rt; "{count} declarations"),
        None => println!(rt; "no tree"),
    };
    match written {
        Ok(()) => ExitCode::from(0u8),
        Err(_) => ExitCode::from(1u8),
    }
}
