//! A program for `bench/run`: it reads a source of at most 1,048,576 bytes, resolves its names, and writes how many functions
//! it has, or that it has no program.
#![tactic(auto)]

use mz_base::{StdSource, read_all};
use mz_parse::parse;
use mz_scope::resolve;
use mz_token::tokens;
use std::process::ExitCode;

// How many functions the source has; None where it has no program.
fn functions(rt: &HostRuntime) -> Option<usize> {
    let alloc = rt.alloc();
    let mut source = StdSource::new(rt);
    let Ok(bytes) = read_all(alloc, &mut source, 1_048_576) else {
        return None;
    };
    let Ok(found) = tokens(alloc, &bytes) else {
        return None;
    };
    let Ok(surface) = parse(alloc, &found) else {
        return None;
    };
    match resolve(alloc, &surface) {
        Ok(program) => Some(program.funs.len()),
        Err(_) => None,
    }
}

fn main(rt: HostRuntime) -> ExitCode {
    let written = match functions(&rt) {
        Some(count) => println!(rt; "{count} functions"),
        None => println!(rt; "no program"),
    };
    match written {
        Ok(()) => ExitCode::from(0u8),
        Err(_) => ExitCode::from(1u8),
    }
}
