//! What no clause says: the outputs of whole calls, as they are wanted from outside.

mod refusals;
mod table;
mod verify;

use mz_base::{Failed, MemorySink, MemorySource, OpenGate, Sink, Source};
use mz_cli::{Status, mezzo, mezzo_plain};
use std::alloc::{AllocError, Global};
use std::test::Fail;
use table::{CALLS, Call, ONE_CELL};

fn words_of(alloc: Global, mode: &str) -> Result<Vec<String>, AllocError> {
    let mut words = Vec::new(alloc);
    words.push(String::from_str(alloc, "mezzo")?)?;
    words.push(String::from_str(alloc, mode)?)?;
    Ok(words)
}

// Whether the call answers and writes what is wanted.
fn answers_so(alloc: Global, row: &Call) -> Result<bool, Fail> {
    let words = words_of(alloc, row.mode)?;
    let mut source = MemorySource::new(
        row.bytes.to_vec(alloc)?,
        row.most.0.max(1),
        [row.failing.0].to_vec(alloc)?,
    );
    let mut sink = MemorySink::new(
        Vec::with_capacity(alloc, 200)?,
        row.most.1.max(1),
        [row.failing.1].to_vec(alloc)?,
    );
    let status = mezzo_plain(alloc, &words, &mut source, &mut sink);
    Ok(status == row.status && sink.bytes() == row.written)
}

// The first of the calls that doesn't.
fn wrong_call(alloc: Global, rows: &[Call]) -> Result<Option<&'static str>, Fail> {
    for row in rows {
        if !answers_so(alloc, row)? {
            return Ok(Some(row.name));
        }
    }
    Ok(None)
}

#[test]
fn calls_answer_and_write(rt: HostRuntime) -> Result<(), Fail> {
    assert_eq!(rt; wrong_call(rt.alloc(), &CALLS)?, None);
    Ok(())
}

// What the program of one cell is answered with a comment behind it that makes it so long.
fn answer_at_length(alloc: Global, length: usize) -> Result<(Status, Vec<u8>), Fail> {
    let mut bytes = ONE_CELL.to_vec(alloc)?;
    bytes.extend_from_slice(b"//")?;
    for _ in bytes.len()..length {
        bytes.push(b'x')?;
    }
    let mut source = MemorySource::new(bytes, 4096, Vec::new(alloc));
    let mut sink = MemorySink::new(Vec::with_capacity(alloc, 200)?, 4096, Vec::new(alloc));
    let status = mezzo_plain(alloc, &words_of(alloc, "sched")?, &mut source, &mut sink);
    Ok((status, sink.bytes().to_vec(alloc)?))
}

#[test]
fn the_longest_text_runs_and_one_byte_more_does_not(rt: HostRuntime) -> Result<(), Fail> {
    let (status, written) = answer_at_length(rt.alloc(), 1_048_576)?;
    assert_eq!(rt; status, Status::Done);
    assert!(rt; written.as_slice() == b"42\n".as_slice());
    let (status, written) = answer_at_length(rt.alloc(), 1_048_577)?;
    assert_eq!(rt; status, Status::Refused);
    assert!(rt; written.as_slice() == b"refused: too long\n".as_slice());
    Ok(())
}

// 128 prints of a number are 256 commands; a `;` at the end makes one more.
#[test]
fn core_names_are_at_most_256(rt: HostRuntime) -> Result<(), Fail> {
    let alloc = rt.alloc();
    for (last, status) in [("print 1 }", Status::Done), ("print 1; }", Status::Refused)] {
        let mut text = String::from_str(
            alloc,
            "data mutable cell = Cell { v: int } sig start = () -> (r: unknown) fun main : start = { ",
        )?;
        for _ in 0..127 {
            text.push_str("print 1; ")?;
        }
        text.push_str(last)?;
        let mut source = MemorySource::new(text.as_bytes().to_vec(alloc)?, 4096, Vec::new(alloc));
        let mut sink = MemorySink::new(Vec::with_capacity(alloc, 300)?, 4096, Vec::new(alloc));
        assert_eq!(rt;
            mezzo_plain(alloc, &words_of(alloc, "sched")?, &mut source, &mut sink),
            status,
            "{last}"
        );
    }
    Ok(())
}

// A sink that takes nothing.
#[derive(Drop)]
struct NothingSink {
    stalls: u64,
}

impl Sink for NothingSink {
    ghost use Rattle.std.specs.Prelude.{ℕ, List, Option, Some, []};

    ghost written = { λ _. Some [] };

    ghost faults = { λ _. 0 };

    ghost stalls = { λ sink. sink.stalls };

    fn write(&mut self, piece: &[u8]) -> Result<usize, Failed> {
        if piece.len() > 0 {
            self.stalls = self.stalls.saturating_add(1);
        }
        Ok(0)
    }
}

// A source that counts its reads and has no byte.
#[derive(Drop)]
struct CountingSource {
    reads: u64,
}

impl Source for CountingSource {
    ghost use Rattle.std.specs.Prelude.{ℕ, List, Option, Some, []};

    ghost left = { λ _. Some [] };

    ghost faults = { λ _. 0 };

    fn read(&mut self, _room: &mut [u8]) -> Result<usize, Failed> {
        self.reads = self.reads.saturating_add(1);
        Ok(0)
    }
}

#[test]
fn a_sink_that_takes_nothing_is_a_fault(rt: HostRuntime) -> Result<(), Fail> {
    let alloc = rt.alloc();
    let mut sink = NothingSink { stalls: 0 };
    let mut source = CountingSource { reads: 0 };
    assert_eq!(rt;
        mezzo_plain(alloc, &words_of(alloc, "frob")?, &mut source, &mut sink),
        Status::WriteFault
    );
    assert_eq!(rt; source.reads, 0);
    assert_eq!(rt;
        mezzo(
            alloc,
            &words_of(alloc, "sched")?,
            &mut source,
            &mut sink,
            &OpenGate::new()
        ),
        Status::WriteFault
    );
    assert!(rt; source.reads > 0);
    Ok(())
}

#[test]
fn statuses_are_numbered(rt: HostRuntime) -> Result<(), Fail> {
    let statuses = [
        Status::Done,
        Status::Refused,
        Status::Usage,
        Status::Stopped,
        Status::ReadFault,
        Status::WriteFault,
        Status::Memory,
    ];
    for (number, status) in statuses.iter().enumerate() {
        assert_eq!(rt; usize::from(status.number()), number);
    }
    Ok(())
}
