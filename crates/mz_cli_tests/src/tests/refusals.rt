//! What is refused, with its line; and every front of a text.
use super::table::{ONE_CELL, REFUSALS, Refused};
use super::words_of;
use mz_base::{MemorySink, MemorySource};
use mz_cli::{Status, mezzo_plain};
use std::alloc::Global;
use std::test::Fail;

// Whether the bytes are refused with this line alone.
fn is_refused_so(alloc: Global, row: &Refused) -> Result<bool, Fail> {
    let words = words_of(alloc, "sched")?;
    let mut source = MemorySource::new(row.bytes.to_vec(alloc)?, 4096, Vec::new(alloc));
    let mut sink = MemorySink::new(Vec::with_capacity(alloc, 200)?, 4096, Vec::new(alloc));
    let status = mezzo_plain(alloc, &words, &mut source, &mut sink);
    Ok(status == Status::Refused && sink.bytes() == row.line)
}

// The first of the rows whose source isn't refused so.
fn wrong_refusal(alloc: Global, rows: &[Refused]) -> Result<Option<&'static str>, Fail> {
    for row in rows {
        if !is_refused_so(alloc, row)? {
            return Ok(Some(row.name));
        }
    }
    Ok(None)
}

#[test]
fn sources_are_refused(rt: HostRuntime) -> Result<(), Fail> {
    assert_eq!(rt; wrong_refusal(rt.alloc(), &REFUSALS)?, None);
    Ok(())
}

// Whether the front of this length is refused for want of a `main`, where it ends with a declaration, and else at a token.
fn front_is_refused(alloc: Global, length: usize) -> Result<bool, Fail> {
    let words = words_of(alloc, "sched")?;
    let mut bytes = ONE_CELL.to_vec(alloc)?;
    bytes.truncate(length);
    let mut source = MemorySource::new(bytes, 4096, Vec::new(alloc));
    let mut sink = MemorySink::new(Vec::with_capacity(alloc, 200)?, 4096, Vec::new(alloc));
    let status = mezzo_plain(alloc, &words, &mut source, &mut sink);
    let written = sink.bytes();
    let right = match length {
        0 | 35 | 36 | 66 | 67 => written == b"refused: 1:1: no main\n".as_slice(),
        _ => written.starts_with(b"refused: ") && written.ends_with(b": unexpected\n"),
    };
    Ok(status == Status::Refused && right)
}

#[test]
fn every_front_of_one_cell_is_refused(rt: HostRuntime) -> Result<(), Fail> {
    for length in 0..ONE_CELL.len() {
        assert!(rt; front_is_refused(rt.alloc(), length)?, "{length}");
    }
    Ok(())
}
